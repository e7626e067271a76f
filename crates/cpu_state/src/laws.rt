//! Laws of memory.
ghost use Rattle.cpu_state.specs.Laws.{IsReadBack, IsReadOutside, IsWrittenAlike, IsKeptOutside, IsHiddenWithin, IsReadElsewhere, IsStandingInParts, IsStandingAlike};

/// What is written is read again.
pub fn read_back()
    ensures { IsReadBack }
{}

/// What a set of addresses has to do with reading and writing.
pub fn outside()
    ensures read { IsReadOutside }
    ensures alike { IsWrittenAlike }
    ensures kept { IsKeptOutside }
    ensures hidden { IsHiddenWithin }
    ensures elsewhere { IsReadElsewhere }
{}

/// Bytes that stand at an address, in parts and in other memory.
pub fn standing()
    ensures parts { IsStandingInParts }
    ensures alike { IsStandingAlike }
{}
