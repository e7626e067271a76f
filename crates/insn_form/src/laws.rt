//! Laws of single instructions.
ghost use Rattle.insn_form.specs.Laws.{IsFramed, IsKept, HasOneInstruction, HasOneNext, HasOneRun};
ghost use Rattle.insn_form.specs.Processor.{IsProcessorAfter, IsProcessorAlong};
ghost use Rattle.insn_form.specs.Touched.{IsReadAndWrite, LeavesNowhere, IsNarrowed, IsUnited, ReadsHeld, WritesHeld, TouchesHeld, KeepsPermissions, IsGuarded, IsUnwritten, IsHidden};
ghost use Rattle.insn_form.specs.Again.{IsSameStep, IsCopiedTo, IsSyscallCopied, IsUnasked};
ghost use Rattle.insn_form.specs.Exactly.{ActsExactly};
ghost use Rattle.insn_form.specs.Moved.{IsSameTask};
ghost use Rattle.insn_form.specs.Alike.{IsAlikeAct, IsAlikeSyscall, IsAlikeStep, IsUnwrittenAt, ReadsAnywhere, WritesAnywhere};
ghost use Rattle.insn_form.specs.FlagsBack.{GivesFiveBack, GivesFlagsBack};

/// An instruction that leaves a set of addresses alone does the same whatever stands there.
pub fn framed()
    ensures { IsFramed }
{}

/// An instruction that leaves a set of addresses alone changes no byte of it.
pub fn kept()
    ensures { IsKept }
{}

/// To leave a set alone is to read none of its bytes and to write none of them.
pub fn left_alone()
    ensures parts { IsReadAndWrite }
    ensures nowhere { LeavesNowhere }
    ensures narrowed { IsNarrowed }
    ensures united { IsUnited }
{}

/// An instruction that acts touches bytes alone that are held with the permission that is needed.
pub fn touched()
    ensures reads { ReadsHeld }
    ensures writes { WritesHeld }
    ensures held { TouchesHeld }
{}

/// What an instruction leaves of memory.
pub fn remaining()
    ensures permissions { KeepsPermissions }
    ensures guarded { IsGuarded }
    ensures unwritten { IsUnwritten }
    ensures hidden { IsHidden }
{}

/// The state of a processor stays one.
pub fn processor_state()
    ensures after { IsProcessorAfter }
    ensures along { IsProcessorAlong }
{}

/// A step goes over to each state that looks the same outside a set that it leaves alone, where the instruction stands there too.
pub fn same_step()
    ensures { IsSameStep }
{}

/// The same instruction elsewhere does the same, calls aside; `syscall` does so but for rcx.
pub fn copied()
    ensures steady { IsCopiedTo }
    ensures syscall { IsSyscallCopied }
{}

/// An operation that leaves no flag undefined doesn't depend on its question.
pub fn unasked()
    ensures { IsUnasked }
{}

/// When an operation that leaves no flag undefined acts, and where it leads.
pub fn exact()
    ensures { ActsExactly }
{}

/// With its RIP displacement rewritten for another place an instruction is the same task: direct branches aside, for places below 2^31.
pub fn same_task()
    ensures { IsSameTask }
{}

/// Flags that were kept in ax come back.
pub fn flags_back()
    ensures five { GivesFiveBack }
    ensures six { GivesFlagsBack }
{}

/// A state has at most one next state.
pub fn one_next()
    ensures instruction { HasOneInstruction }
    ensures next { HasOneNext }
{}

/// A state has at most one run of so many steps.
pub fn one_run()
    ensures { HasOneRun }
{}

/// Over memories that are alike but for stale bytes, an instruction that reads none of these does the same, here and elsewhere, and ends the
/// staleness of what it writes.
pub fn alike()
    ensures act { IsAlikeAct }
    ensures syscall { IsAlikeSyscall }
    ensures step { IsAlikeStep }
{}

/// A byte that isn't written stays, and what is read and written doesn't depend on the instruction's place.
pub fn touched_anywhere()
    ensures unwritten { IsUnwrittenAt }
    ensures reads { ReadsAnywhere }
    ensures writes { WritesAnywhere }
{}
