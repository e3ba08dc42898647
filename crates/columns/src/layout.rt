// A text as it is shown, the room that it takes, and where it is cut.
ghost use Rattle.std.specs.Prelude.{◌≡◌, IfOk, string_bytes};
ghost use Rattle.columns.specs.Columns.{shown_as, spaces_of, Front};

use crate::glyph::{picture, spaces};
use std::alloc::{AllocError, Global};

// The text with its control characters made visible.
pub fn shown(heap: Global, text: &str) -> Result<String, AllocError>
    ensures { IfOk result (λ s. string_bytes s ≡ shown_as text.now) }
{
    text.chars().map(picture).collect(heap)
}

// Spaces as wide as the text.
pub fn padding(heap: Global, text: &str) -> Result<String, AllocError>
    ensures { IfOk result (λ s. string_bytes s ≡ spaces_of text.now) }
{
    text.chars().map(spaces).collect(heap)
}

// The text before the byte, or before the character that the byte is part of.
pub fn before(text: &str, place: usize) -> &str
    ensures { Front text.now place result.now }
{
    &text[..text.floor_char_boundary(place)]
}
