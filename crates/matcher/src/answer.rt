// What a search answers.
ghost use Rattle.std.specs.Prelude.{◌≡◌};
ghost use Rattle.matcher.specs.Regions.{spanning as spanning_of, group as group_of};

use thiserror::Error;

// Bytes of a line, from `begin` up to `end`.
#[derive(Clone, Copy, Debug, PartialEq, Eq)]
pub struct Span {
    pub begin: usize,
    pub end: usize,
}

// Where the groups of a match lie: group 0 is the match itself, and a group that took no part is absent.
#[derive(Clone, Copy, Debug, PartialEq, Eq)]
pub struct Region {
    pub groups: [Option<Span>; 16],
}

impl Region {
    // Group `k`; none past the last.
    pub fn group(&self, k: usize) -> Option<Span>
        ensures { result ≡ group_of self.now k }
    {
        self.groups.get(k).copied().flatten()
    }

    // A match without groups of its own.
    pub fn spanning(begin: usize, end: usize) -> Region
        ensures { result ≡ spanning_of begin end }
    {
        let mut groups = [None; 16];
        groups[0] = Some(Span { begin, end });
        Region { groups }
    }
}

// Why an expression is refused.
#[derive(Clone, Copy, Debug, PartialEq, Eq, Error)]
#[error("no legal expression goes on at byte {at}")]
pub struct Illegal {
    // the length of the longest beginning that a legal expression shares
    pub at: usize,
}

// What a search found, if anything; or that the expression is not legal.
pub type Answer = Result<Option<Region>, Illegal>;
