// Examples, computed from the definitions.
ghost use Rattle.std.specs.Prelude.{◌≡◌, true};
ghost use Rattle.preference.specs.Worked.{Choices, Groups, Ends, Characters, Others};

// The meaning gives the worked examples.
pub fn worked_examples_stand() -> bool
    ensures yes { result ≡ true }
    ensures choices { Choices }
    ensures groups { Groups }
    ensures ends { Ends }
    ensures characters { Characters }
    ensures others { Others }
{
    true
}
