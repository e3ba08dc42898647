// Whether bytes are UTF-8, and where a text may be cut: between two characters, at its begin and at its end.
ghost use Rattle.std.specs.Prelude.{◌≡◌, IsUtf8, Decides};
ghost use Rattle.std.specs.Str.{IsCharBoundary};
ghost use Rattle.chars.specs.Edges.{text, edge, NextEdge};

pub fn is_text(bytes: &[u8]) -> bool
    ensures value { result ≡ text bytes.now }
    ensures decides { Decides result (IsUtf8 bytes.now) }
{
    std::str::from_utf8(bytes).is_ok()
}

pub fn is_edge(line: &str, place: usize) -> bool
    ensures value { result ≡ edge line.now place }
    ensures decides { Decides result (IsCharBoundary line.now place) }
{
    line.is_char_boundary(place)
}

// The first edge above the place; none from the line's end on.
pub fn next_edge(line: &str, place: usize) -> Option<usize>
    ensures { NextEdge line.now place result }
{
    if place >= line.len() {
        return None;
    }
    Some(line.ceil_char_boundary(place + 1))
}
