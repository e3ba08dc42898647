// The word matcher: words divided by `|`, found whole and in either case of ASCII letters.
//
// `salt|pepper` finds `Salt` in `5 g Salt` and nothing in `salted`. What an expression of words means, and what an answer says of the
// line, is in the crate `words`; here the words of an expression are held against a line, one place after the other.
#![tactic(auto)]

pub mod search;
mod walk;

pub use search::WordMatcher;
