//! What the definitions promise of lines and scripts, of two files that start under one script, and of deliveries.
ghost use Rattle.std.specs.Prelude.{◌≡◌, [], None};
ghost use Rattle.cpu_state.specs.Processor.{IsProcessorCore};
ghost use Rattle.elf_read.specs.Entries.{entry_of};
ghost use Rattle.elf_read.specs.Image.{image_of};
ghost use Rattle.image_step.specs.Fitting.{FitsWhereOpen};
ghost use Rattle.image_step.specs.Laws.{LinesAreRead, LinesAreSpelled, ScriptsAreRefusedAlike, ScriptsAreScenarios};
ghost use Rattle.image_runs.specs.Quiet.{IsStartPair};
ghost use Rattle.image_step.specs.Scheduled.{PlainRunsAreShown};
ghost use Rattle.image_runs.specs.Starting.{least_met_of, start_machine};

use cpu_alu::unpack;
use cpu_state::processor::world_words;
use cpu_state::script::Script;
use cpu_state::state::Core;

/// A line that is read is within its bounds, and the text is its one text.
pub fn lines_are_spelled()
    ensures { LinesAreSpelled }
{}

/// The text of a line within its bounds is read as that line.
pub fn lines_are_read()
    ensures { LinesAreRead }
{}

/// The text of a script is that of the script without deliveries, and of no other one.
pub fn scripts_are_scenarios()
    ensures { ScriptsAreScenarios }
{}

/// A text that doesn't begin with the second version is refused at the same line, read as a script or as one that may have
/// deliveries.
pub fn scripts_are_refused_alike()
    ensures { ScriptsAreRefusedAlike }
{}

/// The registers, flags and bases at the start under a script.
fn start_core(script: &Script) -> Core
    ensures { result ≡ (start_machine [] script.now).core }
{
    Core {
        regs: script.regs,
        flags: unpack(script.flags),
        fs: script.fs,
        gs: script.gs,
    }
}

/// The registers at the start are a processor's.
fn start_registers(script: &Script)
    ensures { IsProcessorCore (start_machine [] script.now).core }
{
    start_core(script);
}

/// Two files with one entry point start as a pair under a script that is accepted for both of them.
pub fn start_pair(original: &[u8], patched: &[u8], script: &Script)
    requires original { least_met_of original.now script.now.regions ≡ None }
    requires patched { least_met_of patched.now script.now.regions ≡ None }
    requires entry { entry_of patched.now ≡ entry_of original.now }
    ensures { IsStartPair (image_of original.now) (image_of patched.now) (entry_of original.now)
        (start_machine original.now script.now) (start_machine patched.now script.now) }
{
    start_registers(script);
    world_words(&script.world);
}

/// A delivery of a processor's registers fits exactly where no address is refused.
pub fn deliveries_fit_where_open()
    ensures { FitsWhereOpen }
{}

/// A runner shows a run without deliveries exactly where it shows its steps as items.
pub fn plain_runs_are_shown()
    ensures { PlainRunsAreShown }
{}
