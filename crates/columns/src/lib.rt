// What a terminal shows of a text, and how many columns it takes, so that a mark can be put under one of its characters.
//
// Under `漢ö(` the caret of the third character stands in the fourth column, since `漢` takes two: `padding` of the text before it is
// three spaces. A control character is shown by a picture of it. The widths are those of common terminals, not of every one.
#![tactic(auto)]

mod glyph;
pub mod layout;
