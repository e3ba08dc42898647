// What a search answers, what every matcher promises, and what is written once for all matchers.
//
// `search` has the trait: a matcher means a whole function of expression, line and place, which obeys the laws of specs/Laws.
// An expression is read a byte at a time (`reading`), so that its refusal falls where no legal expression goes on.
#![tactic(auto)]

pub mod answer;
pub mod reading;
pub mod search;

pub use search::Matcher;
