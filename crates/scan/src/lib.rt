// What a matcher finds that tries one place at a time.
//
// `first_from` takes a closure, the attempt at a place, and calls it at the edges of the line from a place on, up to the first at which
// it finds something (specs/Earliest). `scan` and `scan_text` answer so for every `Attempt`: where a matcher refuses an expression, and
// the match that begins at a place. That such a matcher obeys the four laws is proved once (proofs/Earliest).
#![tactic(auto)]

pub mod attempt;
