//! Files of the loader form.
ghost use Rattle.std.specs.Prelude.{◌≡◌, None};
ghost use Rattle.turn_tests.specs.LoaderFiles.{Writes};

use elf_read::elf::read_elf;
use loader_form::emit::emit_loader;
use loader_form::error::LoadError;
use loader_form::lay::lay;
use page_group::groups::group;
use pun_base::action::Action;
use pun_base::desk::Desk;
use pun_base::range::Range;
use site_turns::plan::plan_all;
use site_turns::planned::code_ranges;
use start_list::starts::{Starts, ascend};
use std::alloc::Global;

/// Writes the loader form of a file whose instructions at `sites` are displaced; where its stub and its save page are.
pub(crate) fn loaded<D: Desk>(
    alloc: Global,
    file: &[u8],
    starts: &[u32],
    sites: &[u32],
    reserves: &[Range],
    desk: &mut D,
) -> Option<Result<(Range, Range), LoadError>>
    requires { (D.seen desk.old).writing ≡ None }
    ensures { Writes file.now (D.seen desk.old) (D.seen desk.new) result }
{
    let Ok(elf) = read_elf(alloc, file) else {
        return None;
    };
    let bytes = elf.file();
    let _len = bytes.len();
    if sites.len() > 65_536 {
        return None;
    }
    if !ascend(starts) {
        return None;
    }
    if !ascend(sites) {
        return None;
    }
    let Ok(list) = Starts::build(alloc, &elf, starts) else {
        return None;
    };
    let Ok(planned) = plan_all(alloc, &elf, &list, sites, Action::Cover, reserves) else {
        return None;
    };
    let Ok(ranges) = code_ranges(alloc, planned.built()) else {
        return None;
    };
    let Ok(groups) = group(alloc, &ranges) else {
        return None;
    };
    let loader = match lay(alloc, &elf, &planned, &groups, reserves) {
        Ok(loader) => loader,
        Err(error) => return Some(Err(error)),
    };
    match emit_loader(alloc, &elf, &planned, &groups, &loader, "O", desk) {
        Ok(()) => Some(Ok((loader.stub(), loader.save()))),
        Err(_) => None,
    }
}
