// Why a script is not read. The texts are what the program prints.
ghost use Rattle.std.specs.Prelude.{◌≡◌, Some};
ghost use Rattle.script.specs.declared.error.ScriptError.TheVariants.{OutOfMemory};
ghost use Rattle.script.specs.Errors.{error_text};

use std::alloc::AllocFailed;
use std::fmt;
use thiserror::Error;

#[derive(Clone, Copy, Debug, PartialEq, Eq, Error)]
pub enum ScriptError {
    Malformed,
    OutOfMemory,
}

// By hand, so that contracts know the text.
impl fmt::Display for ScriptError {
    ghost output = { λ e. Some (error_text e) };

    fn fmt<W: fmt::Write>(&self, f: &mut fmt::Formatter<W>) -> fmt::Result {
        match self {
            Self::Malformed => f.write_str("bad"),
            Self::OutOfMemory => f.write_str("no memory for the script"),
        }
    }
}

impl<T: Drop> From<AllocFailed<T>> for ScriptError {
    ghost from_gives = { λ _ r. r ≡ OutOfMemory };

    fn from(_refused: AllocFailed<T>) -> ScriptError {
        ScriptError::OutOfMemory
    }
}
