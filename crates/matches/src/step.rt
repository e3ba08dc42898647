// One match of a line, and where the search for the next one goes on.
ghost use Rattle.std.specs.Prelude.{◌≡◌};
ghost use Rattle.matches.specs.Steps.{go_on, GoesOn, stepped, Onward};

use chars::edges::next_edge;
use matcher::answer::{Illegal, Region, Span};
use matcher::search::Matcher;

#[derive(Clone, Copy, Debug, PartialEq, Eq)]
pub struct Match {
    pub region: Region,
    // group 0 of the region: the match itself
    pub span: Span,
    // where the next search begins; none where the line is done
    pub next: Option<usize>,
}

// At the match's end; after an empty match at the next edge, and nowhere if the line ends there.
pub fn next_place(line: &str, span: Span) -> Option<usize>
    ensures value { result ≡ go_on line.now span }
    ensures goes_on { GoesOn line.now span result }
{
    if span.begin == span.end {
        next_edge(line, span.end)
    } else {
        Some(span.end)
    }
}

// The first match from the place on, if there is one. Off the edges of the line there is none. It costs one search.
pub fn next_match<M: Matcher>(
    matcher: &M,
    expression: &[u8],
    line: &str,
    place: usize,
) -> Result<Option<Match>, Illegal>
    ensures means { result ≡ stepped line.now (M.means matcher.now expression.now line.now place) }
    ensures onward { Onward line.now place result }
{
    let Some(region) = matcher.search_text(expression, line, place)? else {
        return Ok(None);
    };
    // each match has group 0
    let span = region.group(0).unwrap();
    let next = next_place(line, span);
    Ok(Some(Match { region, span, next }))
}
