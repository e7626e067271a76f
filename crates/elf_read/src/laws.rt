//! What the definitions promise of files whose parts are known.
ghost use Rattle.elf_read.specs.Laws.{TableReadsBack, PlainImage, PlainEntry, Accepted, AcceptedLower, ExecIsLoaded, WindowIsLoaded};

/// A program header table is read back, wherever it stands in a file.
pub fn table_reads_back()
    ensures { TableReadsBack }
{}

/// A plain file loads its text, and nothing else.
pub fn plain_image()
    ensures { PlainImage }
{}

/// A plain file starts at its text.
pub fn plain_entry()
    ensures { PlainEntry }
{}

/// The rules leave of an accepted file what later parts of the program rely on: its loaded entries lie in the
/// file and among a program's addresses, and ascend by whole pages.
pub fn accepted()
    ensures { Accepted }
{}

/// What `read_elf` accepts is accepted by `read_written` too.
pub fn accepted_lower()
    ensures { AcceptedLower }
{}

/// What `is_exec` tells of an accepted file is told by its image too.
pub fn exec_is_loaded()
    ensures { ExecIsLoaded }
{}

/// What `window` shows of an accepted file stands in its image.
pub fn window_is_loaded()
    ensures { WindowIsLoaded }
{}
