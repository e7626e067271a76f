//! What holds of the entries of starts that are not refused, in a file that is accepted.
ghost use Rattle.start_entries.specs.Laws.{OneEach, AllExecuted, SharedExactly, AllInstructions, AreCode};
ghost use Rattle.start_entries.specs.Rows.{AreWorked};
ghost use Rattle.start_entries.specs.Standing.{BuiltAreEntries};
ghost use Rattle.start_entries.specs.Listed.{AllListed};

/// Each start has one entry, in the order of the list.
pub fn one_each()
    ensures { OneEach }
{}

/// Each byte of an entry can be executed, and an entry has 1 to 15 bytes.
pub fn all_executed()
    ensures { AllExecuted }
{}

/// An entry is marked exactly where one of its bytes is a byte of another entry.
pub fn shared_exactly()
    ensures { SharedExactly }
{}

/// At a start of known length stands one instruction, of that length and form.
pub fn all_instructions()
    ensures { AllInstructions }
{}

/// Entries of starts that are not refused are entries of the file's image: code throughout, one
/// instruction where the form is known, and without a byte of another entry where they aren't
/// marked.
pub fn built_are_entries()
    ensures { BuiltAreEntries }
{}

/// Some bytes are the spelling of an instruction, whatever their displacement and immediate.
pub fn are_code()
    ensures { AreCode }
{}

/// Starts of short texts have the lengths and the refusals that are worked out by hand.
pub fn are_worked()
    ensures { AreWorked }
{}

/// Each entry of a list that was built of an accepted file can be executed, and has the form of an instruction of its length.
pub fn all_listed()
    ensures { AllListed }
{}
