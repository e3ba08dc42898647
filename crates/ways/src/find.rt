// How the match of one alternative is found.
ghost use Rattle.std.specs.Prelude.{ℕ, List, IfOk};
ghost use Rattle.grammar.specs.Grammar as g;
ghost use Rattle.ways.specs.Match.{run};
ghost use Rattle.ways.specs.Meaning.{leading};
ghost use Rattle.ways.specs.Starts.{Begins};

use crate::cursor::Cursor;
use crate::start::Start;
use arrayvec::ArrayVec;

// The match of an alternative.
#[derive(Debug, Drop)]
pub struct Matched {
    // the place of the line where it ends
    pub end: usize,
    // where its brackets stand, left to right; an expression has at most 15 pairs
    pub brackets: ArrayVec<usize, 30>,
}

pub trait FindWay {
    ghost use Rattle.ways.specs.Matched.{Matches, Keeps};

    // Why it may come to no answer.
    type Stop;

    // It serves this expression and this line.
    ghost serves: { Self → List ℕ → List ℕ → Type 0 };

    // The match that begins at the place `from` of the line, of the alternative that begins at `start` in the expression.
    fn find_way(
        &mut self,
        start: &Start<'_>,
        from: &Cursor<'_>,
    ) -> Result<Option<Matched>, Self::Stop>
        ensures found { IfOk result (λ r. (e : List ℕ) (is : List g.Item) → serves self.old e from.now.line.now → Begins e start.now is → Matches (leading is) from.now.place (run from.now.line.now (leading is) from.now.place) r) }
        ensures same { Keeps serves self.old self.new };
}
