// Why the program ends with status 1.
use matches::all::Failure;
use std::alloc::AllocError;
use std::io;
use thiserror::Error;

#[derive(Debug, Drop, Error)]
pub enum Trouble {
    #[error("usage: seek word|expression EXPRESSION < SHEET")]
    Usage,
    // as has been shown with a caret
    #[error("the expression is refused")]
    Refused,
    #[error("seek: {0}")]
    Io(#[from] io::Error),
}

impl From<AllocError> for Trouble {
    fn from(error: AllocError) -> Trouble {
        Trouble::Io(error.into())
    }
}

impl From<Failure> for Trouble {
    fn from(failure: Failure) -> Trouble {
        match failure {
            Failure::Illegal(_) => Trouble::Refused,
            Failure::Memory => AllocError.into(),
        }
    }
}
