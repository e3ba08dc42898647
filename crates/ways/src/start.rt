// Where the alternatives of an expression begin.
ghost use Rattle.std.specs.Prelude.{◌≡◌, ℕ, ◌+◌, ◌<◌, ◌^◌, List, length, IfSome};
ghost use Rattle.grammar.specs.Grammar as g;
ghost use Rattle.grammar.specs.Parse.{items as items_of};

use grammar::expression::Expression;
use grammar::items::{Item, Items};

// The begin of an alternative.
#[derive(Clone, Copy)]
pub struct Start<'a> {
    // its items, and those behind it
    pub items: Items<'a>,
    // how many items stand before it
    pub nth: usize,
    // how many pairs of brackets were opened before it
    pub opened: usize,
    // each item has a byte, and a text is shorter than 2 ^ 63, so neither count overflows on the way to the end
    ghost few: { (nth + length items.rest.now < 2 ^ 63) × (opened + length items.rest.now < 2 ^ 63) },
}

impl<'a> Start<'a> {
    ghost use Rattle.ways.specs.Starts.{Begins, After};

    // The begin of these items, with none before it.
    pub fn at_begin(items: Items<'a>) -> Start<'a>
        ensures { (result.items ≡ items.entry) × (result.nth ≡ 0) × (result.opened ≡ 0) }
    {
        Start {
            items,
            nth: 0,
            opened: 0,
        }
    }

    // The begin of the first alternative.
    pub fn first(expression: &Expression<'a>) -> Start<'a>
        ensures whole { (result.items.rest.now ≡ expression.now.text.now) × (result.nth ≡ 0) × (result.opened ≡ 0) }
        ensures begins { Begins expression.now.text.now result (items_of expression.now.text.now) }
    {
        Start::at_begin(expression.items())
    }

    // The begin of the next alternative, if there is one. Reads this one to its end.
    pub fn following(&self) -> Option<Start<'a>>
        ensures onward { IfSome result (λ s. length s.items.rest.now < length self.now.items.rest.now) }
        ensures after { (e : List ℕ) (is : List g.Item) → Begins e self.now is → After e self.now is result }
    {
        let Start {
            mut items,
            mut nth,
            mut opened,
        } = *self;
        while let Some(item) = items.next() {
            nth += 1;
            match item {
                Item::Bar => {
                    return Some(Start { items, nth, opened });
                }
                Item::Open => opened += 1,
                _ => {}
            }
        }
        None
    }
}

// The alternatives that are left of an expression, left to right. What follows the first one is known from the begin, so that
// going through them at each place of a line reads nothing unless the second one is asked for. What follows any other is read
// when that one is given.
#[derive(Clone, Copy)]
pub struct Alternatives<'a> {
    next: Option<Start<'a>>,
    // what follows that one, if it is known
    known: Option<Option<Start<'a>>>,
}

impl<'a> Alternatives<'a> {
    ghost use Rattle.ways.specs.Meaning.{alternatives};
    ghost use Rattle.ways.specs.Starts.{Left};

    // All of them.
    pub fn new(expression: &Expression<'a>) -> Alternatives<'a>
        ensures { Left expression.now.text.now 0 result (alternatives (items_of expression.now.text.now)) }
    {
        let first = Start::first(expression);
        Alternatives {
            next: Some(first),
            known: Some(first.following()),
        }
    }
}

impl<'a> Iterator for Alternatives<'a> {
    ghost use Rattle.std.specs.Iterator.{at_most};
    ghost use Rattle.ways.specs.Starts.{Advances, count_left};

    type Item = Start<'a>;

    // Of the alternatives that were left the first is given, and the others are left.
    ghost next_gives = { Advances };

    ghost remaining = { λ a. at_most (count_left a) };

    fn next(&mut self) -> Option<Start<'a>> {
        let start = self.next?;
        self.next = match self.known.take() {
            Some(after) => after,
            None => start.following(),
        };
        Some(start)
    }
}
