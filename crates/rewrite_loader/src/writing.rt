//! Writing the loader form of what was planned, whatever events its code has.
ghost use Rattle.std.specs.Prelude.{◌≡◌, None, IfOk};
ghost use Rattle.pun_base.specs.Desk.{Stays};
ghost use Rattle.patch_report.specs.Grammar.{IsReport};
ghost use Rattle.patch_report.specs.Values.{body_of, written};
ghost use Rattle.rewrite_core.specs.Patching.{IsWritable};
ghost use Rattle.rewrite_loader.specs.Writing.{WritesLoader};

use crate::error::LoaderError;
use elf_read::elf::Elf;
use loader_form::emit::emit_loader;
use loader_form::lay::lay;
use page_group::groups::Groups;
use patch_report::origin::Origin;
use patch_report::report::Report;
use pun_base::action::Action;
use pun_base::desk::Desk;
use pun_base::range::Range;
use rewrite_core::patching::{code_groups, report_of};
use site_turns::planned::Planned;
use std::alloc::{AllocError, Global};

/// What was planned and written in the loader form, and the groups of its code.
#[derive(Drop)]
pub struct Loaded {
    pub planned: Planned,
    pub groups: Groups,
}

impl Loaded {
    /// The report of what was written of such an original. What the report doesn't need is freed
    /// before it is made.
    pub fn into_report(
        self,
        alloc: Global,
        action: Action,
        origin: Origin,
    ) -> Result<Report, AllocError>
        requires { IsReport (written (body_of action self.planned.private self.planned.rows
            self.groups.homes) origin) }
        ensures { IfOk result (λ report. report ≡ written (body_of action self.planned.private
            self.planned.rows self.groups.homes) origin) }
    {
        let Loaded { planned, groups } = self;
        let (private, rows, built) = planned.into_parts();
        drop(built);
        report_of(alloc, private, rows, groups, action, origin)
    }
}

/// Writes the loader form's file of what was planned under a name, in pieces of 4,096 bytes, and
/// answers what was written.
///
/// `reserves` are those that the plan was made with.
pub fn write_loader<D: Desk>(
    alloc: Global,
    elf: &Elf<'_>,
    planned: Planned,
    reserves: &[Range],
    name: &str,
    desk: &mut D,
) -> Result<Loaded, LoaderError>
    requires writable { IsWritable elf.now.bytes planned }
    requires nothing { (D.seen desk.old).writing ≡ None }
    ensures writes { WritesLoader elf.now.bytes reserves.now planned name.now
        (D.seen desk.old) (D.seen desk.new) result }
    ensures stays { Stays (D.seen desk.old) (D.seen desk.new) }
{
    let groups = code_groups(alloc, planned.built())?;
    let loader = lay(alloc, elf, &planned, &groups, reserves)?;
    emit_loader(alloc, elf, &planned, &groups, &loader, name, desk)?;
    Ok(Loaded { planned, groups })
}
