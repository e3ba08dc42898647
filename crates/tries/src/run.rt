// The match of one alternative by trying: each repeat takes as many characters as it can, and gives back one at a time.
//
// Nothing is remembered, so that the work can grow beyond all bounds; whoever cannot have that sets a limit.
ghost use Rattle.std.specs.Prelude.{◌≡◌, ℕ, List, [], IfOk};
ghost use Rattle.grammar.specs.Grammar as g;
ghost use Rattle.ways.specs.Match.{run as run_spec};
ghost use Rattle.ways.specs.Meaning.{leading};
ghost use Rattle.ways.specs.Matched.{Matches, Keeps};
ghost use Rattle.ways.specs.Starts.{Begins};
ghost use Rattle.tries.specs.Tried.{Tried, TriedBracket, TriedMost, NotedBehind, holds_at};

use crate::forward::{Choice, Reached};
use crate::limit::Limit;
use arrayvec::ArrayVec;
use grammar::items::{Item, Items, Piece};
use ways::cursor::Cursor;
use ways::find::{FindWay, Matched};
use ways::line_end::at_end;
use ways::start::Start;

// Whether an item that takes nothing holds at the place.
pub fn holds(item: Item<'_>, line: &[u8], place: usize) -> bool
    ensures { result ≡ holds_at item.entry line.now place }
{
    match item {
        Item::Start => place == 0,
        Item::End => at_end(line, place),
        _ => false,
    }
}

// The tries, and where the brackets stand on the way that was found, the last one first.
#[derive(Drop)]
pub struct Tries<L: Limit> {
    pub limit: L,
    // how deep tries may nest
    pub depth: L::Depth,
    pub brackets: ArrayVec<usize, 30>,
}

impl<L: Limit> Tries<L> {
    // Tries that may nest so deep.
    pub fn new(limit: L, depth: L::Depth) -> Tries<L>
        ensures limit { result.limit ≡ limit }
        ensures depth { result.depth ≡ depth }
        ensures none_noted { result.brackets.items ≡ [] }
    {
        Tries {
            limit,
            depth,
            brackets: ArrayVec::new(),
        }
    }

    // Where the items end, up to the next bar, from the place on, if they match. They may begin at any item of an alternative,
    // inside brackets too. The brackets that were noted before stay noted.
    #[cycle(run_run_bracket_run_most)]
    pub fn run(
        &mut self,
        items: &Items<'_>,
        from: &Cursor<'_>,
        depth: L::Depth,
    ) -> Result<Option<usize>, L::Stop>
        ensures tried { IfOk result (λ r. Tried items.now from.now self.old.brackets.items r self.new.brackets.items) }
        ensures noted { NotedBehind self.old.brackets.items result self.new.brackets.items }
        ensures depth { self.new.depth ≡ self.old.depth }
    {
        let mut reached = Reached {
            left: *items,
            here: *from,
            choice: Choice::Ended(None),
        };
        let mut depth = depth;
        'choices: loop {
            depth = reached.forward(&mut self.limit, depth)?;
            let end = match &reached.choice {
                Choice::Ended(end) => return Ok(*end),
                Choice::Maybe(next) => self.run(&reached.left, next, depth),
                Choice::Many(piece) => self.run_most(piece, &reached.left, &reached.here, depth),
                Choice::Bracket => self.run_bracket(&reached.left, &reached.here, depth),
            }?;
            // only a piece that may be left out leaves another try
            if end.is_some() || !matches!(reached.choice, Choice::Maybe(_)) {
                return Ok(end);
            }
        }
    }

    // A bracket, and the items behind it.
    #[inline(never)]
    #[cycle(run_run_bracket_run_most)]
    fn run_bracket(
        &mut self,
        items: &Items<'_>,
        from: &Cursor<'_>,
        depth: L::Depth,
    ) -> Result<Option<usize>, L::Stop>
        ensures tried { IfOk result (λ r. TriedBracket items.now from.now self.old.brackets.items r self.new.brackets.items) }
        ensures noted { NotedBehind self.old.brackets.items result self.new.brackets.items }
        ensures depth { self.new.depth ≡ self.old.depth }
    {
        let end = self.run(items, from, depth)?;
        if end.is_some() {
            // an expression has no more brackets than there is room for
            let _ = self.brackets.try_push(from.place);
        }
        Ok(end)
    }

    // The piece as often as can be, and the items behind it.
    #[tactic(auto, using(crate::proofs::Tries::repeats))]
    #[cycle(run_run_bracket_run_most)]
    fn run_most(
        &mut self,
        piece: &Piece<'_>,
        items: &Items<'_>,
        from: &Cursor<'_>,
        depth: L::Depth,
    ) -> Result<Option<usize>, L::Stop>
        ensures tried { IfOk result (λ r. TriedMost piece.now items.now from.now self.old.brackets.items r self.new.brackets.items) }
        ensures noted { NotedBehind self.old.brackets.items result self.new.brackets.items }
        ensures depth { self.new.depth ≡ self.old.depth }
    {
        let depth = self.limit.deeper(depth)?;
        if let Some(next) = from.step(piece) {
            if let Some(end) = self.run_most(piece, items, &next, depth)? {
                return Ok(Some(end));
            }
        }
        self.run(items, from, depth)
    }
}

impl<L: Limit> FindWay for Tries<L> {
    type Stop = L::Stop;

    ghost serves = { λ _ _ _. Unit {0} };

    // The same tries may be asked again and again: how deep they may nest stays.
    fn find_way(&mut self, start: &Start<'_>, from: &Cursor<'_>) -> Result<Option<Matched>, L::Stop>
        ensures found { IfOk result (λ r. (e : List ℕ) (is : List g.Item) → Unit {0} → Begins e start.now is → Matches (leading is) from.now.place (run_spec from.now.line.now (leading is) from.now.place) r) }
        ensures same { Keeps (λ _ _ _. Unit {0}) self.old self.new }
        ensures depth { self.new.depth ≡ self.old.depth }
    {
        self.brackets.clear();
        let Some(end) = self.run(&start.items, from, self.depth)? else {
            return Ok(None);
        };
        let mut brackets = std::mem::replace(&mut self.brackets, ArrayVec::new());
        brackets.reverse();
        Ok(Some(Matched { end, brackets }))
    }
}
