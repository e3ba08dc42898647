// What an expression of words means, and how it is read.
//
// `salt|pepper` is legal, and means two words. specs/Grammar has the legal expressions, specs/Meaning the answer of a search as it is
// computed, and specs/Found what that answer says of the line; proofs/Telling says that it does, and that the meaning obeys the laws of
// a matcher. `reader` is how far an expression has been read; the matcher is the crate `word`.
#![tactic(auto)]

pub mod reader;
