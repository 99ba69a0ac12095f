use std::alloc::{AllocError, AllocFailed};

/// What is wrong with a line: the first of these that fits.
#[derive(Clone, Copy, Debug, PartialEq, Eq)]
pub enum LineCause {
    /// A space stands at an end or beside another one, the call is unknown, or it has not as many
    /// words. Line 1 isn't `callers` and one word more.
    Words,
    /// A word isn't the number that it should be, or a tuple has too many numbers.
    Number,
    /// There are no callers or more than 64, the caller is none of them, or the register is above
    /// 15.
    Range,
    /// The caller holds a record already, or has none to look at or to drop.
    Held,
}

/// Why bytes aren't a script. The first bad line of the script decides.
#[derive(Clone, Copy, Debug, PartialEq, Eq)]
pub enum BadScript {
    /// Lines are numbered from 1.
    BadLine { line: u32, cause: LineCause },
    /// The line after the last one that may be.
    TooMany { line: u32 },
    NoMemory,
}

impl From<AllocError> for BadScript {
    ghost use Rattle.std.specs.Prelude.{◌≡◌};
    ghost use Rattle.call_script.specs.declared.bad_script.BadScript.TheVariants.{NoMemory};

    ghost from_gives = { λ _ e. e ≡ NoMemory };

    fn from(_: AllocError) -> Self {
        BadScript::NoMemory
    }
}

impl<T: Drop> From<AllocFailed<T>> for BadScript {
    ghost use Rattle.std.specs.Prelude.{◌≡◌};
    ghost use Rattle.call_script.specs.declared.bad_script.BadScript.TheVariants.{NoMemory};

    ghost from_gives = { λ _ e. e ≡ NoMemory };

    fn from(_: AllocFailed<T>) -> Self {
        BadScript::NoMemory
    }
}
