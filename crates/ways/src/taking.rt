// Whether a piece takes a character.
ghost use Rattle.ways.specs.Pieces.{Accepts};

use grammar::items::Piece;

#[inline(always)]
pub(crate) fn takes(piece: &Piece<'_>, c: char) -> bool
    ensures { Accepts piece.now c result }
{
    match piece {
        Piece::Char(own) => c == *own,
        Piece::Any => c != '\n',
        Piece::Set(set) => c.is_ascii() && set.takes(c as u8),
        Piece::Class(class) if c.is_ascii() => class.takes(c as u8),
        Piece::Class(class) => class.takes_wide(),
    }
}
