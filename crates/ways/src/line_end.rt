// Where a line ends.
ghost use Rattle.std.specs.Prelude.{◌≡◌};
ghost use Rattle.ways.specs.Match.{at_end as at_end_spec};

// Whether `$` holds at any place of any bytes: at their end, and before a byte 10 that ends them.
pub fn at_end(line: &[u8], place: usize) -> bool
    ensures { result ≡ at_end_spec line.now place }
{
    place == line.len() || place < line.len() && place + 1 == line.len() && line[place] == b'\n'
}
