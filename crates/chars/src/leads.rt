// The first byte of a UTF-8 character of more than one byte, and what it asks of the bytes after it.
ghost use Rattle.std.specs.Prelude.{◌≡◌};
ghost use Rattle.chars.specs.Leads.{lead_of as lead_of_spec, owes as owes_of, goes_on, rest_of};

// The next byte lies from `low` to `high`, and `more` bytes from 128 to 191 follow it.
#[derive(Clone, Copy, Debug, PartialEq, Eq)]
pub struct Owed {
    pub more: u8,
    pub low: u8,
    pub high: u8,
}

impl Owed {
    // Whether the character goes on with the byte.
    pub fn takes(self, b: u8) -> bool
        ensures { result ≡ goes_on self b }
    {
        self.low <= b && b <= self.high
    }

    // What is owed after the next byte; none where the character is whole.
    pub fn rest(self) -> Option<Owed>
        ensures { result ≡ rest_of self.more }
    {
        self.more.checked_sub(1).map(|more| Owed {
            more,
            low: 0x80,
            high: 0xbf,
        })
    }
}

fn owes(more: u8, low: u8, high: u8) -> Option<Owed>
    ensures { result ≡ owes_of more low high }
{
    Some(Owed { more, low, high })
}

// None where no character of more than one byte begins so.
pub fn lead_of(b: u8) -> Option<Owed>
    ensures { result ≡ lead_of_spec b }
{
    match b {
        0xc2..=0xdf => owes(0, 0x80, 0xbf),
        0xe0 => owes(1, 0xa0, 0xbf),
        0xed => owes(1, 0x80, 0x9f),
        0xe1..=0xef => owes(1, 0x80, 0xbf),
        0xf0 => owes(2, 0x90, 0xbf),
        0xf1..=0xf3 => owes(2, 0x80, 0xbf),
        0xf4 => owes(2, 0x80, 0x8f),
        _ => None,
    }
}
