// All matches of a line, left to right, for any matcher.
//
// In `salt, Salt` the words `salt` are found at 0 to 4 and at 6 to 10: each search goes on where the match before it ends. After
// an empty match it goes on at the next character, so that the same place is never found twice, and past the line's end it is done.
// `step` takes one step and `all` takes them all; specs/Chains says what the list of them is.
#![tactic(auto)]

pub mod all;
pub mod step;
