// The words of an expression, held against the line at one place.
ghost use Rattle.std.specs.Prelude.{◌≡◌, ◌≤◌, length};
ghost use Rattle.words.specs.Meaning.{free_before as free_before_spec, free_after as free_after_spec};
ghost use Rattle.word.specs.Walks.{fresh, bar, letter_at, stepped, end_of, found};

use chars::sets::Set;

// No word character touches a word that begins at the place.
pub(crate) fn free_before(line: &[u8], place: usize) -> bool
    requires { place ≤ length line.now }
    ensures { result ≡ free_before_spec line.now place }
{
    line[..place].last().is_none_or(|b| !Set::Words.takes(*b))
}

// No word character touches a word that ends at the place.
fn free_after(line: &[u8], place: usize) -> bool
    ensures { result ≡ free_after_spec line.now place }
{
    line.get(place).is_none_or(|b| !Set::Words.takes(*b))
}

// How far a word of the expression has been read and found in the line.
#[derive(Clone, Copy, Debug, PartialEq, Eq)]
pub(crate) struct Walk {
    // after a backslash
    escaped: bool,
    // where the line goes on; none once they differed
    reached: Option<usize>,
}

impl Walk {
    fn begin(place: usize) -> Walk
        ensures { result ≡ fresh place }
    {
        Walk {
            escaped: false,
            reached: Some(place),
        }
    }

    // Whether the byte ends the word.
    fn divides(self, b: u8) -> bool
        ensures { result ≡ bar self b }
    {
        !self.escaped && b == b'|'
    }

    // Where the line goes on after one letter more of the word.
    fn letter(self, b: u8, line: &[u8]) -> Option<usize>
        ensures { result ≡ letter_at self.reached b line.now }
    {
        let at = self.reached?;
        let next = line.get(at)?;
        b.eq_ignore_ascii_case(next).then_some(at + 1)
    }

    // The walk after one byte more of the word.
    fn step(self, b: u8, line: &[u8]) -> Walk
        ensures { result ≡ stepped self b line.now }
    {
        if !self.escaped && b == b'\\' {
            return Walk {
                escaped: true,
                ..self
            };
        }
        let reached = if self.escaped && Set::Digits.takes(b) {
            None
        } else {
            self.letter(b, line)
        };
        Walk {
            escaped: false,
            reached,
        }
    }

    // Where the word ends in the line, if the whole of it was found and nothing touches it there.
    fn end(self, line: &[u8]) -> Option<usize>
        ensures { result ≡ end_of self.reached line.now }
    {
        self.reached.filter(|at| free_after(line, *at))
    }
}

// Where the first word that stands at the place ends.
pub(crate) fn first_word(expression: &[u8], line: &[u8], place: usize) -> Option<usize>
    ensures { result ≡ found line.now place (fresh place) expression.now }
{
    let mut walk = Walk::begin(place);
    for b in expression {
        if walk.divides(*b) {
            if let Some(end) = walk.end(line) {
                return Some(end);
            }
            walk = Walk::begin(place);
        } else {
            walk = walk.step(*b, line);
        }
    }
    walk.end(line)
}
