// An expression read a byte at a time, up to the first byte with which no legal expression goes on.
ghost use Rattle.std.specs.Prelude.{◌≡◌, ℕ, Bool as Test, Option as Maybe};
ghost use Rattle.matcher.specs.Refusals.{refuses, verdict};

use crate::answer::Illegal;

// How far an expression has been read.
pub trait Reader: Copy {
    // The state after one byte more; none where no legal expression goes on with it.
    ghost next: { Self → ℕ → Maybe Self };

    // Whether an expression may end here.
    ghost done: { Self → Test };

    fn step(self, b: u8) -> Option<Self>
        ensures { result ≡ next self b };

    fn may_end(self) -> bool
        ensures { result ≡ done self };
}

// Whether the expression is legal; where it is not, the error says how many bytes were read before the reading failed.
pub fn check<R: Reader>(start: R, expression: &[u8]) -> Result<(), Illegal>
    ensures { result ≡ verdict (refuses R.next R.done start expression.now) }
{
    let mut state = start;
    for (at, b) in expression.iter().enumerate() {
        state = state.step(*b).ok_or(Illegal { at })?;
    }
    if state.may_end() {
        Ok(())
    } else {
        Err(Illegal {
            at: expression.len(),
        })
    }
}
