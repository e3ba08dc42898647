// The fields of a record, one after the other.
ghost use Rattle.std.specs.Prelude.{◌≡◌, ◌<◌, ◌==◌, [], ◌∷◌, length, position, MatchResult};
ghost use Rattle.cases.specs.declared.fault.Fault.TheVariants.{Missing as NoneLeft, Extra as SomeLeft};
ghost use Rattle.cases.specs.Fields.{fields_of, left, Parted, Takes};
ghost use Rattle.cases.specs.Number.{Writes, Blamed};
ghost use Rattle.cases.specs.Hex.{spelled, Faulty};

use crate::fault::Fault;
use crate::hex::read_bytes;
use crate::number::read_number;
use std::alloc::Global;

// Where the first space stands.
fn first_space(bytes: &[u8]) -> Option<usize>
    ensures { result ≡ position (λ b. b == 32) bytes.now }
{
    bytes.iter().position(|b| *b == b' ')
}

// The first field, and the record behind its space.
fn split_field(bytes: &[u8]) -> (&[u8], Option<&[u8]>)
    ensures { fields_of bytes.now ≡ result.0.now ∷ left result.1 }
{
    match first_space(bytes) {
        Some(at) => (&bytes[..at], Some(&bytes[at + 1..])),
        None => (bytes, None),
    }
}

// The fields that are left of a record, as an iterator.
#[derive(Clone, Copy)]
pub struct Fields<'a> {
    // none behind the last field
    rest: Option<&'a [u8]>,
}

impl<'a> Iterator for Fields<'a> {
    type Item = &'a [u8];

    ghost use Rattle.cases.specs.Fields.{left};
    ghost use Rattle.std.specs.Iterator.{YieldsFirstRef, item_count};

    ghost next_gives = { YieldsFirstRef (λ fields. left fields.rest) };

    ghost remaining = { item_count (λ fields. left fields.rest) };

    fn next(&mut self) -> Option<&'a [u8]> {
        let rest = self.rest?;
        let (field, behind) = split_field(rest);
        self.rest = behind;
        Some(field)
    }
}

impl<'a> Fields<'a> {
    pub fn new(bytes: &'a [u8]) -> Fields<'a>
        ensures all { left result.rest ≡ fields_of bytes.now }
        ensures parted { Parted bytes.now }
    {
        Fields { rest: Some(bytes) }
    }

    // The next field as it stands.
    pub fn word(&mut self) -> Result<&'a [u8], Fault>
        ensures { MatchResult result (λ w. left self.old.rest ≡ w.now ∷ left self.new.rest) (λ x. (x ≡ NoneLeft) × (left self.old.rest ≡ []) × (left self.new.rest ≡ [])) }
    {
        self.next().ok_or(Fault::Missing)
    }

    // The next field as a decimal number.
    pub fn number(&mut self) -> Result<u32, Fault>
        ensures { Takes Writes Blamed (left self.old.rest) (left self.new.rest) result }
    {
        read_number(self.word()?)
    }

    // The next field as bytes in hexadecimal.
    pub fn bytes(&mut self, heap: Global) -> Result<Vec<u8>, Fault>
        ensures { Takes (λ v field. spelled v.items ≡ field) Faulty (left self.old.rest) (left self.new.rest) result }
    {
        read_bytes(heap, self.word()?)
    }

    // Nothing is left.
    pub fn end(&self) -> Result<(), Fault>
        ensures { MatchResult result (λ _. left self.now.rest ≡ []) (λ x. (x ≡ SomeLeft) × (0 < length (left self.now.rest))) }
    {
        match self.rest {
            Some(_) => Err(Fault::Extra),
            None => Ok(()),
        }
    }
}
