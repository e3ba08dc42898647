// The records, each read from its line.
use crate::mistake::Mistake;
use cases::fields::Fields;
use std::alloc::Global;

// A matcher, by its name.
#[derive(Clone, Copy, Debug, PartialEq, Eq)]
pub enum Named {
    Word,
    Expression,
}

impl<'a> TryFrom<&'a [u8]> for Named {
    type Error = Mistake;

    fn try_from(name: &'a [u8]) -> Result<Named, Mistake> {
        match name {
            b"word" => Ok(Named::Word),
            b"expression" => Ok(Named::Expression),
            _ => Err(Mistake::Matcher),
        }
    }
}

#[derive(Drop)]
pub enum Record<'a> {
    Case(u32),
    End,
    Matcher(Named),
    Search {
        expression: Vec<u8>,
        line: Vec<u8>,
        place: u32,
    },
    NextLine {
        from: u32,
        bytes: Vec<u8>,
    },
    // a record of a set, by its name, and a call other than `next_line`: not answered here, so not read further
    Set(&'a [u8]),
    Call(&'a [u8]),
}

// The records of a set, and the calls that are known but not answered here.
const SET_RECORDS: [&[u8]; 9] = [
    b"syntax", b"name", b"context", b"pattern", b"ref", b"entry", b"scopes", b"bytes", b"repeat",
];

const CALLS: [&[u8]; 6] = [
    b"start",
    b"restart",
    b"line",
    b"mark",
    b"match_at",
    b"apply",
];

fn read_case<'a>(mut fields: Fields<'_>) -> Result<Record<'a>, Mistake> {
    let number = fields.number()?;
    fields.end()?;
    Ok(Record::Case(number))
}

fn read_end<'a>(fields: Fields<'_>) -> Result<Record<'a>, Mistake> {
    fields.end()?;
    Ok(Record::End)
}

fn read_matcher<'a>(mut fields: Fields<'_>) -> Result<Record<'a>, Mistake> {
    let name = fields.word()?;
    fields.end()?;
    Ok(Record::Matcher(Named::try_from(name)?))
}

fn read_search<'a>(heap: Global, mut fields: Fields<'_>) -> Result<Record<'a>, Mistake> {
    let expression = fields.bytes(heap)?;
    let line = fields.bytes(heap)?;
    let place = fields.number()?;
    fields.end()?;
    Ok(Record::Search {
        expression,
        line,
        place,
    })
}

fn read_next_line<'a>(heap: Global, mut fields: Fields<'_>) -> Result<Record<'a>, Mistake> {
    let from = fields.number()?;
    let bytes = fields.bytes(heap)?;
    fields.end()?;
    Ok(Record::NextLine { from, bytes })
}

fn read_call<'a>(heap: Global, mut fields: Fields<'a>) -> Result<Record<'a>, Mistake> {
    match fields.word()? {
        b"next_line" => read_next_line(heap, fields),
        name if CALLS.contains(&name) => Ok(Record::Call(name)),
        _ => Err(Mistake::Call),
    }
}

pub(crate) fn read_record<'a>(heap: Global, line: &'a [u8]) -> Result<Record<'a>, Mistake> {
    let mut fields = Fields::new(line);
    match fields.word()? {
        b"case" => read_case(fields),
        b"end" => read_end(fields),
        b"matcher" => read_matcher(fields),
        b"search" => read_search(heap, fields),
        b"call" => read_call(heap, fields),
        name if SET_RECORDS.contains(&name) => Ok(Record::Set(name)),
        _ => Err(Mistake::Record),
    }
}
