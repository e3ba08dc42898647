// A legal expression.
ghost use Rattle.std.specs.Prelude.{◌≡◌, Some as Just, None as Neither, MatchResult};
ghost use Rattle.grammar.specs.Reader.{refusal as refusal_of};

use crate::items::Items;
use crate::legality::check;
use matcher::answer::Illegal;
use std::str::from_utf8;

#[derive(Clone, Copy, Debug, PartialEq, Eq)]
pub struct Expression<'a> {
    pub text: &'a str,
    ghost legal: { refusal_of text.now ≡ Neither },
}

impl<'a> Expression<'a> {
    // The expression that the bytes spell; if they spell none, the place at which they are refused.
    pub fn new(bytes: &'a [u8]) -> Result<Expression<'a>, Illegal>
        ensures { MatchResult result (λ e. (e.text.now ≡ bytes.now) × (refusal_of bytes.now ≡ Neither)) (λ x. refusal_of bytes.now ≡ Just x.at) }
    {
        check(bytes)?;
        // every item is written in whole characters
        let text = from_utf8(bytes).unwrap();
        Ok(Expression { text })
    }

    // Its items, all of them.
    pub fn items(&self) -> Items<'a>
        ensures { result.rest.now ≡ self.now.text.now }
    {
        Items { rest: self.text }
    }
}
