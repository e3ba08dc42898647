// The interface of a matcher.
ghost use Rattle.std.specs.Prelude.{◌≡◌, ℕ, List};
ghost use Rattle.matcher.specs.Answers.{Answer as Reply, checked};
ghost use Rattle.matcher.specs.Laws.{Lawful};

use crate::answer::{Answer, Illegal};

pub trait Matcher {
    // What the matcher means: the answer for each expression, line and place, all of them bytes or counted in bytes.
    ghost means: { Self → List ℕ → List ℕ → ℕ → Reply };

    // What an answer says of the expression and the line, in the matcher's own words.
    ghost tells: { Self → List ℕ → List ℕ → ℕ → Reply → Type 0 };

    // Whether the expression is legal: what every search for it answers of that.
    fn check(&self, expression: &[u8]) -> Result<(), Illegal>
        ensures { (l : List ℕ) (p : ℕ) → result ≡ checked (means self.now expression.now l p) };

    // What is found from the place on in a line that is known to be UTF-8, which is not tested again.
    fn search_text(&self, expression: &[u8], line: &str, place: usize) -> Answer
        ensures means { result ≡ means self.now expression.now line.now place }
        ensures told { tells self.now expression.now line.now place result };

    // The same in any line. In one that is not UTF-8 nothing is found.
    fn search(&self, expression: &[u8], line: &[u8], place: usize) -> Answer
        ensures means { result ≡ means self.now expression.now line.now place }
        ensures told { tells self.now expression.now line.now place result }
    {
        match std::str::from_utf8(line) {
            Ok(text) => self.search_text(expression, text, place),
            Err(_) => {
                self.check(expression)?;
                Ok(None)
            }
        }
    }

    ghost lawful: { (m : Self) → Lawful (means m) };

    ghost told: { (m : Self) (e l : List ℕ) (p : ℕ) → tells m e l p (means m e l p) };
}
