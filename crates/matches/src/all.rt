// All matches of a line.
ghost use Rattle.std.specs.Prelude.{◌≡◌, MatchResult};
ghost use Rattle.matches.specs.declared.all.Failure.TheVariants.{Illegal as Refused, Memory};
ghost use Rattle.matches.specs.Chains.{Matches, Failed};

use crate::step::next_match;
use matcher::answer::{Illegal, Span};
use matcher::search::Matcher;
use std::alloc::{AllocError, AllocFailed, Global};
use thiserror::Error;

// Why there is no list of matches.
#[derive(Clone, Copy, Debug, PartialEq, Eq, Error)]
pub enum Failure {
    #[error(transparent)]
    Illegal(Illegal),
    #[error("there is not enough memory")]
    Memory,
}

// By hand, and not by `#[from]`, so that clauses can name the error that a `?` makes.
impl From<Illegal> for Failure {
    ghost from_gives = { λ x r. r ≡ Refused x };

    fn from(illegal: Illegal) -> Failure {
        Failure::Illegal(illegal)
    }
}

impl From<AllocError> for Failure {
    ghost from_gives = { λ _ r. r ≡ Memory };

    fn from(_error: AllocError) -> Failure {
        Failure::Memory
    }
}

impl<T: Drop> From<AllocFailed<T>> for Failure {
    ghost from_gives = { λ _ r. r ≡ Memory };

    fn from(_error: AllocFailed<T>) -> Failure {
        Failure::Memory
    }
}

// Where the matches of the line lie, left to right. It costs one search a match and one more, each from where the one before ended.
pub fn all_matches<M: Matcher>(
    heap: Global,
    matcher: &M,
    expression: &[u8],
    line: &str,
) -> Result<Vec<Span>, Failure>
    ensures { MatchResult result (λ v. Matches (M.means matcher.now) expression.now line.now v.items) (λ x. Failed (M.means matcher.now) expression.now x) }
{
    let mut spans = Vec::new(heap);
    let mut place = Some(0);
    while let Some(at) = place {
        let Some(found) = next_match(matcher, expression, line, at)? else {
            return Ok(spans);
        };
        spans.push(found.span)?;
        place = found.next;
    }
    Ok(spans)
}
