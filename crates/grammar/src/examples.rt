// Examples, computed from the definitions.
ghost use Rattle.std.specs.Prelude.{◌≡◌, true};
ghost use Rattle.grammar.specs.Worked.{Places, Parts, Tokens, Memberships};

// The definitions give the worked examples.
pub fn worked_examples_stand() -> bool
    ensures yes { result ≡ true }
    ensures places { Places }
    ensures parts { Parts }
    ensures tokens { Tokens }
    ensures memberships { Memberships }
{
    true
}
