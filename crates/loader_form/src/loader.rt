//! Where the stub and its save page stand.
ghost use Rattle.std.specs.Prelude.{◌≡◌};

use pun_base::range::Range;
use std::marker::Model;

/// The stub's pages, its save page, and how many runs of pages it maps.
#[derive(Drop)]
pub struct Loader {
    stub: Range,
    save: Range,
    runs: u32,
}

impl Model for Loader {
    ghost use Rattle.loader_form.specs.LoaderState.{LoaderState};

    ghost Value = { LoaderState };

    ghost view = { λ l. record { stub = l.stub; save = l.save; runs = l.runs } };
}

impl Loader {
    /// A loader of these parts.
    pub(crate) fn new(stub: Range, save: Range, runs: u32) -> Loader
        ensures { result ≡ record { stub = stub; save = save; runs = runs } }
    {
        Loader { stub, save, runs }
    }

    /// The stub's pages: its code, the text `/proc/self/exe`, a record for each run, and zeros.
    pub fn stub(&self) -> Range
        ensures { result ≡ self.now.stub }
    {
        self.stub
    }

    /// The page in which the stub keeps registers.
    pub fn save(&self) -> Range
        ensures { result ≡ self.now.save }
    {
        self.save
    }

    /// How many runs of pages the stub maps.
    pub fn runs(&self) -> u32
        ensures { result ≡ self.now.runs }
    {
        self.runs
    }
}
