//! Why a file wasn't rewritten into the loader form.
ghost use Rattle.std.specs.Prelude.{◌≡◌};

use elf_emit::emit::EmitError;
use elf_read::refusal::ElfError;
use loader_form::error::LoadError;
use rewrite_core::rewrite::RewriteError;
use std::alloc::AllocError;
use thiserror::Error;

/// Why a file wasn't rewritten into the loader form.
#[derive(Debug, Drop, Error)]
pub enum LoaderError {
    /// The file is refused, or not written, as in any rewriting; a table that is too long is that
    /// of the loader form's file.
    #[error("the file can't be rewritten")]
    Rewrite(RewriteError),
    /// There is no place for the stub or its save page, or there are too many runs for the stub.
    #[error("the stub can't be laid")]
    Load(LoadError),
}

impl From<RewriteError> for LoaderError {
    ghost use Rattle.rewrite_loader.specs.declared.error.LoaderError.TheVariants.{Rewrite};

    ghost from_gives = { λ error result. result ≡ Rewrite error };

    fn from(error: RewriteError) -> LoaderError {
        LoaderError::Rewrite(error)
    }
}

impl From<LoadError> for LoaderError {
    ghost use Rattle.rewrite_loader.specs.Causes.{load_error};

    ghost from_gives = { λ error result. result ≡ load_error error };

    fn from(error: LoadError) -> LoaderError {
        match error {
            LoadError::Memory => LoaderError::Rewrite(RewriteError::Memory),
            error => LoaderError::Load(error),
        }
    }
}

impl From<ElfError> for LoaderError {
    ghost use Rattle.rewrite_core.specs.Causes.{elf_error};
    ghost use Rattle.rewrite_loader.specs.declared.error.LoaderError.TheVariants.{Rewrite};

    ghost from_gives = { λ error result. result ≡ Rewrite (elf_error error) };

    fn from(error: ElfError) -> LoaderError {
        LoaderError::Rewrite(RewriteError::from(error))
    }
}

impl From<EmitError> for LoaderError {
    ghost use Rattle.rewrite_core.specs.Causes.{emit_error};
    ghost use Rattle.rewrite_loader.specs.declared.error.LoaderError.TheVariants.{Rewrite};

    ghost from_gives = { λ error result. result ≡ Rewrite (emit_error error) };

    fn from(error: EmitError) -> LoaderError {
        LoaderError::Rewrite(RewriteError::from(error))
    }
}

impl From<AllocError> for LoaderError {
    ghost use Rattle.rewrite_core.specs.declared.rewrite.RewriteError.TheVariants.{Memory};
    ghost use Rattle.rewrite_loader.specs.declared.error.LoaderError.TheVariants.{Rewrite};

    ghost from_gives = { λ _ result. result ≡ Rewrite Memory };

    fn from(_error: AllocError) -> LoaderError {
        LoaderError::Rewrite(RewriteError::Memory)
    }
}
