// Whether an expression is legal and, if it is not, where it is refused.
ghost use Rattle.std.specs.Prelude.{◌≡◌, None as Nowhere, MatchResult, OnOk};
ghost use Rattle.matcher.specs.Refusals.{Longest, verdict};
ghost use Rattle.grammar.specs.Grammar.{Legal};
ghost use Rattle.grammar.specs.Parse.{Spelled, OneWay};
ghost use Rattle.grammar.specs.Reader.{refusal};

use crate::reader::{Mode, State};
use matcher::answer::Illegal;
use matcher::reading;

// An error where the expression is not legal, with the length of the longest beginning that it shares with a legal one. The
// expression is read once.
pub fn check(expression: &[u8]) -> Result<(), Illegal>
    ensures read { result ≡ verdict (refusal expression.now) }
    ensures right { MatchResult result (λ _. Legal expression.now) (λ x. Longest Legal expression.now x.at) }
    ensures spelled { OnOk result (Spelled expression.now Nowhere) }
    ensures one_way { OneWay expression.now }
{
    let start = State {
        groups: 0,
        depth: 0,
        mode: Mode::Plain,
    };
    reading::check(start, expression)
}
