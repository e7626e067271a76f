//! Writing a file whose pages for code a stub maps.
ghost use Rattle.std.specs.Prelude.{◌≡◌, ◌+◌, ◌^◌, ◌<◌, ◌≤◌, [], ◌∷◌, ◌++◌, None, replicate, IfOk, OnOk};
ghost use Rattle.elf_emit.specs.Emits.{EmitsFrame};
ghost use Rattle.elf_emit.specs.Frames as frames;
ghost use Rattle.site_turns.specs.Planning.{Request};
ghost use Rattle.loader_form.specs.Laid as laid;
ghost use Rattle.loader_form.specs.Laid.{LaidLoads, bare_frame, loader_frame};
ghost use Rattle.loader_form.specs.Lay.{stub_count, laid_of};
ghost use Rattle.loader_form.specs.Loading.{load_job, IsLoading};

use crate::lay::stub_pages;
use crate::loader::Loader;
use crate::stub::stub_bytes;
use elf_emit::emit::{EmitError, emit_tailed, pages_place, shown_pages};
use elf_emit::runs::{Part, runs_of};
use elf_emit::tail::Tail;
use elf_read::elf::Elf;
use elf_read::segment::{PF_R, PF_W, PF_X};
use page_group::groups::Groups;
use pun_base::desk::Desk;
use pun_base::limits::PAGE_LEN;
use site_turns::copying::copied_writes;
use site_turns::planned::Planned;
use std::alloc::{AllocError, Global};

/// What the table loads after so many group pages: the stub, which can be read and executed, and
/// the save page, which can be read and written.
fn loader_parts(loader: &Loader, groups: u32) -> [Part; 2]
    requires runs { loader.now.runs ≤ 65535 }
    requires groups { groups + stub_count loader.now.runs < 2 ^ 32 }
    ensures { result ≡ record {
      addr = loader.now.stub.lo;
      first = groups;
      count = stub_count loader.now.runs;
      perms = 5;
    } ∷ record {
      addr = loader.now.save.lo;
      first = groups + stub_count loader.now.runs;
      count = 1;
      perms = 6;
    } ∷ [] }
{
    let pages = stub_pages(loader.runs());
    [
        Part {
            addr: loader.stub().lo,
            first: groups,
            count: u64::from(pages),
            perms: PF_R | PF_X,
        },
        Part {
            addr: loader.save().lo,
            first: groups + pages,
            count: 1,
            perms: PF_R | PF_W,
        },
    ]
}

/// The stub's pages and a page of zeros, where the group pages begin at `at` in the file.
fn tail_bytes(
    alloc: Global,
    elf: &Elf<'_>,
    planned: &Planned,
    groups: &Groups,
    loader: &Loader,
    at: u64,
) -> Result<Vec<u8>, AllocError>
    requires loading { (q : Request)
        × IsLoading elf.now.bytes planned.now groups.now loader.now q }
    requires few { frames.count (loader_frame (load_job elf.now.bytes planned.now groups.now)
        (laid_of loader.now)) ≤ 1024 }
    requires place { at ≡ frames.pages_at (bare_frame
        (load_job elf.now.bytes planned.now groups.now) (laid_of loader.now)) }
    ensures { IfOk result (λ v. v.items ≡ laid.stub_pages
        (load_job elf.now.bytes planned.now groups.now) (laid_of loader.now)
        ++ replicate 4096 0) }
{
    let file = elf.file();
    let _len = file.len();
    let _private = planned.private();
    let pages = shown_pages(alloc, groups)?;
    let runs = runs_of(alloc, &pages)?;
    let len = (stub_pages(loader.runs()) + 1) * PAGE_LEN;
    stub_bytes(
        alloc,
        loader.stub().lo,
        loader.save().lo,
        elf.entry(),
        &runs,
        at,
        len,
    )
}

/// Writes the loader form of the patched file under a name, as `emit` does: the table loads the stub and its save page, the stub
/// maps each run of pages for code, and then goes to where the original starts.
///
/// `planned`, `groups` and `loader` are what was planned for the original, the groups of its code, and where `lay` put the stub.
pub fn emit_loader<D: Desk>(
    alloc: Global,
    elf: &Elf<'_>,
    planned: &Planned,
    groups: &Groups,
    loader: &Loader,
    name: &str,
    desk: &mut D,
) -> Result<(), EmitError>
    requires nothing { (D.seen desk.old).writing ≡ None }
    requires loading { (q : Request)
        × IsLoading elf.now.bytes planned.now groups.now loader.now q }
    ensures emits { EmitsFrame (loader_frame (load_job elf.now.bytes planned.now groups.now)
        (laid_of loader.now)) name.now (D.seen desk.old) (D.seen desk.new) result }
    ensures loads { OnOk result (LaidLoads (load_job elf.now.bytes planned.now groups.now)
        (laid_of loader.now)) }
{
    let file = elf.file();
    let _len = file.len();
    let Ok(writes) = copied_writes(alloc, planned.rows()) else {
        return Err(EmitError::Memory);
    };
    let private = planned.private();
    let parts = loader_parts(loader, groups.count());
    let at = match pages_place(alloc, elf, &parts, private) {
        Ok(at) => at,
        Err(error) => return Err(error),
    };
    let Ok(bytes) = tail_bytes(alloc, elf, planned, groups, loader, at) else {
        return Err(EmitError::Memory);
    };
    let tail = Tail {
        bytes: &bytes,
        parts: &parts,
        start: Some(u64::from(loader.stub().lo)),
    };
    emit_tailed(
        alloc,
        elf,
        &writes,
        planned.built(),
        groups,
        private,
        tail,
        name,
        desk,
    )
}
