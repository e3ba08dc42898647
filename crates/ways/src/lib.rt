// What an expression matches, and how its parts are read.
//
// An expression is alternatives of items. A way is where each item of an alternative ends in the line (specs/Ways): `a*ab` has one
// way in `aaab`, with ends 2, 3 and 4. Of all ways from one place the first one that is found when each repeat takes as many
// characters as it can, and gives back one at a time (specs/Match), is the one that goes further at the first item at which two of
// them differ (proofs/Prefers). specs/Groups has where the groups of a match lie, and specs/Meaning what a search answers.
//
// `cursor` is a place of a line and one step from it, `line_end` where any bytes end, `start` where the alternatives begin, and
// `find` what the match of one alternative is, however it is found.
#![tactic(auto)]

pub mod cursor;
pub mod find;
pub mod line_end;
pub mod start;
mod taking;
