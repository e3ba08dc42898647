// The sets `\d`, `\w` and `\s`, from one table of the 128 ASCII characters. No other character is in any of them.
ghost use Rattle.std.specs.Prelude.{◌≡◌};
ghost use Rattle.chars.specs.Sets.{in_set, sort_of as sort_of_spec};

// Where the sets take the same characters: every digit is a word character, and no other two sets overlap.
#[derive(Clone, Copy, Debug, PartialEq, Eq)]
pub enum Sort {
    Digit,
    // an ASCII letter or `_`
    Letter,
    Space,
}

const D: Option<Sort> = Some(Sort::Digit);

const L: Option<Sort> = Some(Sort::Letter);

const S: Option<Sort> = Some(Sort::Space);

const O: Option<Sort> = None;

const SORTS: [Option<Sort>; 128] = [
    O, O, O, O, O, O, O, O, O, S, S, S, S, S, O, O, // 0 to 15
    O, O, O, O, O, O, O, O, O, O, O, O, O, O, O, O, // 16 to 31
    S, O, O, O, O, O, O, O, O, O, O, O, O, O, O, O, // 32 to 47
    D, D, D, D, D, D, D, D, D, D, O, O, O, O, O, O, // 48 to 63
    O, L, L, L, L, L, L, L, L, L, L, L, L, L, L, L, // 64 to 79
    L, L, L, L, L, L, L, L, L, L, L, O, O, O, O, L, // 80 to 95
    O, L, L, L, L, L, L, L, L, L, L, L, L, L, L, L, // 96 to 111
    L, L, L, L, L, L, L, L, L, L, L, O, O, O, O, O, // 112 to 127
];

// What the table says of a byte; none where it is in no set.
fn sort_of(b: u8) -> Option<Sort>
    ensures { result ≡ sort_of_spec b }
{
    SORTS.get(b as usize).copied().flatten()
}

// The sets, as an expression names them.
#[derive(Clone, Copy, Debug, PartialEq, Eq)]
pub enum Set {
    // `\d`: 0 to 9
    Digits,
    // `\w`: ASCII letters, digits and `_`
    Words,
    // `\s`: bytes 9 to 13 and 32
    Spaces,
}

impl Set {
    pub fn takes(self, b: u8) -> bool
        ensures { result ≡ in_set self b }
    {
        match self {
            Set::Digits => matches!(sort_of(b), Some(Sort::Digit)),
            Set::Words => matches!(sort_of(b), Some(Sort::Digit | Sort::Letter)),
            Set::Spaces => matches!(sort_of(b), Some(Sort::Space)),
        }
    }
}
