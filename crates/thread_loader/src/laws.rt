//! Laws about files of the loader form that are patched for guests of several threads.
ghost use Rattle.rewrite_core.specs.Laws.{AreJudgedOnce};
ghost use Rattle.thread_loader.specs.Rewriting.{Judges};

/// An input of `rewrite_threads_loader` has one job or one refusal at most.
#[tactic(auto, using(crate::proofs::LoaderVerdicts::judged_once))]
pub fn judged_once()
    ensures { AreJudgedOnce Judges }
{}
