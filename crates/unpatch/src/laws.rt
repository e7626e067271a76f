//! What undoing gives.
ghost use Rattle.unpatch.specs.Laws.{FrameIsUndone, LeastIsTold, LengthIsTold, UndoneIsGivenBack};

/// Of a file that was written for an original, whatever follows its private range, and of a report that tells
/// the original no refusal holds, and the file undone is the original.
pub fn frame_is_undone()
    ensures { FrameIsUndone }
{}

/// So an answer of `restore` is the original, but for want of memory; what it gives has the length that the report tells;
/// and the address that a refusal tells is the least.
pub fn answers_told()
    ensures given_back { UndoneIsGivenBack }
    ensures length { LengthIsTold }
    ensures least { LeastIsTold }
{}
