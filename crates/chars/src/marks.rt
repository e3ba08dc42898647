// The 18 marks: the characters that an expression writes with a backslash to mean themselves.
ghost use Rattle.std.specs.Prelude.{◌≡◌};
ghost use Rattle.chars.specs.Marks.{mark, bare};

pub fn is_mark(b: u8) -> bool
    ensures { result ≡ mark b }
{
    matches!(
        b,
        b'\\'
            | b'.'
            | b'+'
            | b'*'
            | b'?'
            | b'('
            | b')'
            | b'|'
            | b'['
            | b']'
            | b'{'
            | b'}'
            | b'^'
            | b'$'
            | b'#'
            | b'&'
            | b'-'
            | b'~'
    )
}

// Whether an ASCII character stands for itself without a backslash, outside of a class.
pub fn is_bare(b: u8) -> bool
    ensures { result ≡ bare b }
{
    matches!(b, b'#' | b'&' | b'-' | b'~') || (b < 128 && !is_mark(b))
}
