//! What a patch is given.
ghost use Rattle.std.specs.Prelude.{◌≡◌};
ghost use Rattle.patch_commands.specs.Forms.{mode_in};

use command_io::report_mode::Mode;
use command_words::words::Names;
use pun_base::action::Action;
use pun_base::range::Range;

/// A form of the patched file, with an action: the kernel maps the pages for code, or a stub does; or the same of a file
/// for a guest of several threads.
#[derive(Clone, Copy)]
pub enum Form {
    Plain(Action),
    WithStub(Action),
    ForThreads(Action),
    ForThreadsWithStub(Action),
}

impl Form {
    /// The mode of the form's report.
    pub(crate) fn mode(self) -> Mode
        ensures { result ≡ mode_in self }
    {
        match self {
            Form::Plain(_) | Form::WithStub(_) => Mode::Plain,
            Form::ForThreads(_) | Form::ForThreadsWithStub(_) => Mode::Threaded,
        }
    }
}

/// What a patch is given: the form of the patched file, names, and the ranges in which no new code stands.
#[derive(Drop)]
pub(crate) struct Given<'g, 'a> {
    pub(crate) form: Form,
    pub(crate) names: &'g Names<'a>,
    pub(crate) reserves: &'g [Range],
}
