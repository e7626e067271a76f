//! What the definitions promise of a settled file, and of the file that comes back.
ghost use Rattle.settle.specs.Worked.{SmallIsTaken};
ghost use Rattle.settle.specs.Laws.{SettledIsUndone, UndoneWasSettled, SettledLoads, UnrefusedIsTaken, NoneIsHigher, HighestIsTaken};

/// What was settled comes back byte for byte, and only what was settled does.
pub fn settled_is_undone()
    ensures back { SettledIsUndone }
    ensures only { UndoneWasSettled }
{}

/// A settled file loads its front, and what the original loads, moved by the base.
pub fn settled_loads()
    ensures { SettledLoads }
{}

/// A file that isn't refused can be settled, and every other command takes what is written.
pub fn unrefused_is_taken()
    ensures { UnrefusedIsTaken }
{}

/// No base that isn't refused is above the one that is taken where none is told.
pub fn none_is_higher()
    ensures { NoneIsHigher }
{}

/// Where some base isn't refused, the one that is taken where none is told isn't either, if the largest alignment is a multiple of
/// 4,096.
pub fn highest_is_taken()
    ensures { HighestIsTaken }
{}

/// A small static PIE isn't refused.
pub fn small_is_taken()
    ensures { SmallIsTaken }
{}
