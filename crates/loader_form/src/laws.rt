//! What the definitions promise of the loader form's file and of its stub.
ghost use Rattle.loader_form.specs.Stub.{HasStubLength};
ghost use Rattle.loader_form.specs.Worked.{HasSmallStub};
ghost use Rattle.loader_form.specs.Laid.{LaidIsFrame, LoaderLoads};
ghost use Rattle.loader_form.specs.Lay.{PlannedEndsLow, LaidForIsLaid};
ghost use Rattle.loader_form.specs.Starting.{LaidStarts};
ghost use Rattle.loader_form.specs.Mapped.{RecordsNamePages, MappedIsShownWell};
ghost use Rattle.loader_form.specs.Kernel.{HasOneStepWith, CallsAreReplied, RunsAreOne};
ghost use Rattle.loader_form.specs.Running.{StubRuns, StubStops, EndsAtEntry, NeverWaits, EndsAtExit};
ghost use Rattle.loader_form.specs.Answers.{StubIsTold};
ghost use Rattle.loader_form.specs.Continuing.{PairsAtEntry, KeepsFurther, LoaderLeadsOn, LoaderIsFollowed};
ghost use Rattle.loader_form.specs.Parting.{RunsShowPages, LaidHasParts, LoaderFormLeadsOn, LoaderFormIsFollowed};
ghost use Rattle.loader_form.specs.Planned.{PlannedLoaderIsFollowed};

/// The stub's code has 276 bytes.
pub fn stub_length()
    ensures { HasStubLength }
{}

/// The stub of a small file has the bytes that are worked out by hand.
pub fn small_stub()
    ensures { HasSmallStub }
{}

/// The loader form's file is a written file, and loads the table, the private range, the stub's pages, the save page and the
/// original with what is written, and nothing else; it starts at the stub.
pub fn loader_loads()
    ensures frame { LaidIsFrame }
    ensures loads { LoaderLoads }
{}

/// The code of what was planned has bytes, and ends among addresses of 32 bits.
pub fn planned_ends_low()
    ensures { PlannedEndsLow }
{}

/// The stub's pages and the save page, laid at the least free pages after the turns, meet nothing.
pub fn laid_for_is_laid()
    ensures { LaidForIsLaid }
{}

/// A start state of the loader form's file is one from which the stub starts.
pub fn laid_starts()
    ensures { LaidStarts }
{}

/// The file's bytes that each record names are the pages of its run.
pub fn records_name_pages()
    ensures { RecordsNamePages }
{}

/// Once each run is mapped, memory is sound, and the program runs as the original does.
pub fn mapped_is_shown_well()
    ensures { MappedIsShownWell }
{}

/// Whatever the kernel replies, the stub runs to the original's entry, to the call that ends the
/// program, or to a call for which no reply is left.
pub fn stub_runs()
    ensures { StubRuns }
{}

/// A reply leaves no choice: from a state there is one next state at most, by that reply or without
/// one where there is no call.
pub fn one_step_by_reply()
    ensures one { HasOneStepWith }
    ensures apart { CallsAreReplied }
    ensures runs { RunsAreOne }
{}

/// How replies end a run of the stub.
pub fn replies_end()
    ensures entry { EndsAtEntry }
    ensures replied { NeverWaits }
    ensures exit { EndsAtExit }
{}

/// After a failure of open or mmap the stub's next call ends the program, and it never comes to the
/// original's entry.
pub fn stub_stops()
    ensures { StubStops }
{}

/// Each list of answers leads the stub to one of three ends, and says to which, unless the entry
/// comes before, where it lies in the stub's code.
pub fn stub_is_told()
    ensures { StubIsTold }
{}

/// Where no open and no mmap fails, the stub leads to a start pair, from which the headline of the sound image holds.
pub fn loader_is_followed()
    ensures pairs { PairsAtEntry }
    ensures further { KeepsFurther }
    ensures leads { LoaderLeadsOn }
    ensures followed { LoaderIsFollowed }
{}

/// For a job, whose pages for code the runs show, the stub leads to a start pair, from which the headline
/// of the sound image holds, where no open and no mmap fails.
pub fn loader_form_is_followed()
    ensures pages { RunsShowPages }
    ensures parts { LaidHasParts }
    ensures leads { LoaderFormLeadsOn }
    ensures followed { LoaderFormIsFollowed }
{}

/// The theorem of the loader form: each start state of a file that was planned and laid runs to the original's entry and on as the
/// original does, or ends the program, by what the kernel replies.
pub fn planned_loader_is_followed()
    ensures { PlannedLoaderIsFollowed }
{}
