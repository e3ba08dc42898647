// What is wrong with a record, in words.
use cases::fault::Fault;
use thiserror::Error;

#[derive(Clone, Copy, Debug, PartialEq, Eq, Error)]
pub enum Mistake {
    #[error(transparent)]
    Field(#[from] Fault),
    #[error("there is no such record")]
    Record,
    #[error("there is no such call")]
    Call,
    #[error("there is no such matcher")]
    Matcher,
    // a search before any matcher was named
    #[error("no matcher was named before the search")]
    NoMatcher,
    #[error("the place lies past the bytes")]
    Past,
}
