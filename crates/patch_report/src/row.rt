//! Rows of a report.
ghost use Rattle.std.specs.Prelude.{◌≡◌};

use pun_base::outcome::{Outcome, Plan};
use pun_base::plan_lists::{PunList, TrampList, WriteList};

/// How many bytes a run of written or of punned bytes has at most.
pub const RUN_MAX: usize = 16;

/// A site, its number and what became of it. Numbers run down to 0 in turn order.
#[derive(Debug, PartialEq, Eq, Drop)]
pub struct ReportRow {
    pub site: u32,
    pub number: u32,
    pub outcome: Outcome,
}

fn copied_tramps(tramps: &TrampList) -> TrampList
    ensures { result ≡ tramps.now }
{
    let mut list = TrampList::new();
    let items = tramps.as_slice();
    for tramp in items {
        list.push(*tramp);
    }
    list
}

fn copied_writes(writes: &WriteList) -> WriteList
    ensures { result ≡ writes.now }
{
    let mut list = WriteList::new();
    let items = writes.as_slice();
    for write in items {
        list.push(write.clone().unwrap());
    }
    list
}

fn copied_puns(puns: &PunList) -> PunList
    ensures { result ≡ puns.now }
{
    let mut list = PunList::new();
    let items = puns.as_slice();
    for pun in items {
        list.push(pun.copied());
    }
    list
}

fn copied_plan(plan: &Plan) -> Plan
    ensures { result ≡ plan.now }
{
    Plan {
        scheme: plan.scheme,
        tramps: copied_tramps(&plan.tramps),
        writes: copied_writes(&plan.writes),
        puns: copied_puns(&plan.puns),
    }
}

fn copied_outcome(outcome: &Outcome) -> Outcome
    ensures { result ≡ outcome.now }
{
    match outcome {
        Outcome::Patched(plan) => Outcome::Patched(copied_plan(plan)),
        Outcome::NotRelocatable => Outcome::NotRelocatable,
        Outcome::NoPlan => Outcome::NoPlan,
        Outcome::Shared => Outcome::Shared,
    }
}

impl ReportRow {
    /// The same row.
    pub(crate) fn copied(&self) -> ReportRow
        ensures { result ≡ self.now }
    {
        ReportRow {
            site: self.site,
            number: self.number,
            outcome: copied_outcome(&self.outcome),
        }
    }
}
