// What the meaning of an expression says of the line, in words of ways.
//
// A way is where each item of an alternative ends in the line. specs/Found has what each answer tells: which of all ways was found,
// that there is none, or how much of the expression a legal one shares; specs/Brackets has where the groups of a match lie. The
// functions here compute nothing: their contracts say that the meaning answers what is told, and nothing else, and that it obeys the
// laws of a matcher.
#![tactic(auto)]

ghost use Rattle.std.specs.Prelude.{◌≡◌, ℕ, true, List};
ghost use Rattle.matcher.specs.Answers.{Answer};
ghost use Rattle.matcher.specs.Laws.{Lawful};
ghost use Rattle.grammar.specs.Grammar.{Item};
ghost use Rattle.ways.specs.Meaning.{alternatives, meaning};
ghost use Rattle.preference.specs.Found.{Divided, Told, Agrees};

pub mod examples;

// The meaning obeys the laws of a matcher.
pub fn expressions_are_lawful() -> bool
    ensures yes { result ≡ true }
    ensures laws { Lawful meaning }
{
    true
}

// What is found is the preferred of all ways, with its groups where its brackets stood; and where nothing is found there is none.
pub fn first_match_is_preferred() -> bool
    ensures yes { result ≡ true }
    ensures tells { (e l : List ℕ) (p : ℕ) → Told e l p (meaning e l p) }
{
    true
}

// That is told of no other answer.
pub fn only_one_answer_is_told() -> bool
    ensures yes { result ≡ true }
    ensures only { (e l : List ℕ) (p : ℕ) (a : Answer) → Told e l p a → Agrees a (meaning e l p) }
{
    true
}

// The alternatives are what the bars of an expression divide it into.
pub fn bars_divide_alternatives() -> bool
    ensures yes { result ≡ true }
    ensures divided { (is : List Item) → Divided is (alternatives is) }
{
    true
}
