//! Laws of arithmetic and of the flags word.
ghost use Rattle.cpu_alu.specs.Worked.{AreComputed};
ghost use Rattle.cpu_alu.specs.Laws.{AllFit, AllHide, KeepsRest, ReadsLowBits, IsCleared, AllCompare, AllPacked, IsUnpackedBack, IsPackedBack};

/// Sums and shifts computed from the definitions.
pub fn computed()
    ensures { AreComputed }
{}

/// A result is of its width.
pub fn fits()
    ensures { AllFit }
{}

/// Undefined flags are false, and the flags word's other bits stay.
pub fn flags_stay()
    ensures hidden { AllHide }
    ensures rest { KeepsRest }
{}

/// An operation reads the low bits of its operands.
pub fn low_bits()
    ensures { ReadsLowBits }
{}

/// A number xor itself is 0.
pub fn cleared()
    ensures { IsCleared }
{}

/// A difference's flags compare its operands.
pub fn compared()
    ensures { AllCompare }
{}

/// The flags word and the flags are each other's inverse.
pub fn word_of_flags()
    ensures bits { AllPacked }
    ensures unpacked { IsUnpackedBack }
    ensures packed { IsPackedBack }
{}
