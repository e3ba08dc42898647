// How much may be tried.
ghost use Rattle.std.specs.Prelude.{◌≡◌, ◌+◌, ◌<◌, ◌↔◌, IsOk, IfOk, OnOk, OnErr};

use std::convert::Infallible;
use thiserror::Error;

pub trait Limit {
    // Why no more may be tried.
    type Stop;

    // How deep tries may still nest.
    type Depth: Copy;

    // Allows one try more, and says how deep others may nest within it. It promises nothing of its own: a limit may refuse any.
    fn deeper(&mut self, depth: Self::Depth) -> Result<Self::Depth, Self::Stop>;
}

// It says nothing of whether there is a match.
#[derive(Clone, Copy, Debug, PartialEq, Eq, Error)]
#[error("the limit was reached before it was known what there is")]
pub struct Exhausted;

// So many tries.
#[derive(Clone, Copy, Debug, PartialEq, Eq)]
pub struct Fuel {
    pub left: usize,
}

impl Limit for Fuel {
    type Stop = Exhausted;

    type Depth = usize;

    fn deeper(&mut self, depth: usize) -> Result<usize, Exhausted>
        ensures allowed { IsOk result ↔ ((0 < self.old.left) × (0 < depth)) }
        ensures nested { IfOk result (λ inner. inner + 1 ≡ depth) }
        ensures spent { OnOk result (self.new.left + 1 ≡ self.old.left) }
        ensures kept { OnErr result (self.new ≡ self.old) }
    {
        let left = self.left.checked_sub(1).ok_or(Exhausted)?;
        let inner = depth.checked_sub(1).ok_or(Exhausted)?;
        self.left = left;
        Ok(inner)
    }
}

// As many as it takes, nested as deep as it takes.
#[derive(Clone, Copy, Debug, PartialEq, Eq)]
pub struct Unlimited;

impl Limit for Unlimited {
    type Stop = Infallible;

    type Depth = ();

    fn deeper(&mut self, depth: ()) -> Result<(), Infallible>
        ensures { IsOk result }
    {
        Ok(depth)
    }
}
