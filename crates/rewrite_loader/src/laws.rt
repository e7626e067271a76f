//! Laws about files of the loader form.
ghost use Rattle.rewrite_core.specs.Laws.{AreJudgedOnce};
ghost use Rattle.rewrite_loader.specs.Judging.{Judges};

/// An input has one job or one refusal at most.
#[tactic(auto, using(crate::proofs::LoaderVerdicts::judged_once))]
pub fn judged_once()
    ensures { AreJudgedOnce Judges }
{}
