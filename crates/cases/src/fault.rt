// What is wrong with a record.
ghost use Rattle.std.specs.Prelude.{◌≡◌};
ghost use Rattle.cases.specs.declared.fault.Fault.TheVariants.{Memory};

use std::alloc::{AllocError, AllocFailed};
use thiserror::Error;

#[derive(Clone, Copy, Debug, PartialEq, Eq, Error)]
pub enum Fault {
    // no field is left
    #[error("a field is missing")]
    Missing,
    // a field is left over
    #[error("there are more fields than the record has")]
    Extra,
    #[error("a number has no digits")]
    NoDigits,
    #[error("a number has a character that is no digit")]
    NoDigit,
    #[error("a number is above 4294967295")]
    TooLarge,
    #[error("a field of bytes is empty")]
    NoBytes,
    #[error("a field of bytes has an odd number of digits")]
    OddDigits,
    #[error("a field of bytes has a character that is no lower-case hexadecimal digit")]
    NoHexadecimal,
    #[error("there is not enough memory")]
    Memory,
}

// By hand, and not by `#[from]`, so that clauses can name the error that a `?` makes.
impl From<AllocError> for Fault {
    ghost from_gives = { λ _ r. r ≡ Memory };

    fn from(_error: AllocError) -> Fault {
        Fault::Memory
    }
}

impl<T: Drop> From<AllocFailed<T>> for Fault {
    ghost from_gives = { λ _ r. r ≡ Memory };

    fn from(_error: AllocFailed<T>) -> Fault {
        Fault::Memory
    }
}
