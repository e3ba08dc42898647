// A sheet cut into its lines.
ghost use Rattle.std.specs.Prelude.{◌≡◌, ℕ, ◌<◌, ◌≤◌, List, length, take, drop};
ghost use Rattle.std.specs.Iterator.{YieldsFirstRef, item_count};
ghost use Rattle.chars.specs.Lines.{parts, First, NextLine, Cut};

use std::marker::Model;

// Where the first line ends: after the first byte 10, or at the end of the bytes.
fn line_end(bytes: &[u8]) -> usize
    ensures within { result ≤ length bytes.now }
    ensures first { 0 < length bytes.now → First bytes.now (take result bytes.now) (drop result bytes.now) }
{
    bytes
        .iter()
        .position(|b| *b == b'\n')
        .map_or(bytes.len(), |i| i + 1)
}

// The first line of the bytes and what follows it. A line ends after the first byte 10; what is left without one is a line, and
// nothing left gives none.
pub fn next_line(bytes: &[u8]) -> Option<(&[u8], &[u8])>
    ensures { NextLine bytes.now result }
{
    if bytes.is_empty() {
        return None;
    }
    Some(bytes.split_at(line_end(bytes)))
}

// The lines that are left of a sheet, each with its byte 10, if it has one.
#[derive(Debug, Drop)]
pub struct SheetLines<'a> {
    rest: &'a [u8],
}

impl<'a> Model for SheetLines<'a> {
    ghost Value = { List (List ℕ) };

    ghost view = { λ s. parts s.rest.now };
}

impl<'a> Iterator for SheetLines<'a> {
    type Item = &'a [u8];

    ghost next_gives = { YieldsFirstRef (λ s. s) };

    ghost remaining = { item_count (λ s. s) };

    fn next(&mut self) -> Option<&'a [u8]> {
        let (line, rest) = next_line(self.rest)?;
        self.rest = rest;
        Some(line)
    }
}

// The lines of the bytes: joined they are the bytes, and each but perhaps the last ends in its only byte 10.
pub fn lines(bytes: &[u8]) -> SheetLines<'_>
    ensures lines { result ≡ parts bytes.now }
    ensures cut { Cut bytes.now }
{
    SheetLines { rest: bytes }
}
