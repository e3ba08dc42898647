// The match of one alternative by trying.
//
// `Tries` goes through the items and gives back what a repeat took, one character at a time; a `Limit` says how much it may try.
#![tactic(auto)]

mod forward;
pub mod limit;
pub mod run;
