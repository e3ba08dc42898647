// One character: what is shown for it, and how wide that is.
ghost use Rattle.std.specs.Prelude.{◌≡◌, replicate};
ghost use Rattle.columns.specs.Columns.{picture as picture_of, narrow, east_asian, full, columns};

// A control character would move the cursor, so its picture is shown, in one column.
pub(crate) fn picture(c: char) -> char
    ensures { result ≡ picture_of c }
{
    match c {
        '\0'..='\u{1f}' => char::from_u32(0x2400 + u32::from(c)).unwrap_or(
            char::REPLACEMENT_CHARACTER,
        ),
        '\u{7f}' => '\u{2421}',
        '\u{80}'..='\u{9f}' => char::REPLACEMENT_CHARACTER,
        _ => c,
    }
}

// A mark that stands over the character before it, or a character without a width.
fn is_narrow(c: char) -> bool
    ensures { result ≡ narrow c }
{
    matches!(c, '\u{300}'..='\u{36f}' | '\u{200b}'..='\u{200f}' | '\u{fe00}'..='\u{fe0f}')
}

// A character of East Asia's scripts.
fn is_east_asian(c: char) -> bool
    ensures { result ≡ east_asian c }
{
    matches!(c, '\u{1100}'..='\u{115f}' | '\u{2e80}'..='\u{a4cf}' | '\u{ac00}'..='\u{d7a3}' | '\u{f900}'..='\u{faff}')
}

// A character that is as wide as those of East Asia, or an emoji.
fn is_full(c: char) -> bool
    ensures { result ≡ full c }
{
    matches!(c, '\u{fe30}'..='\u{fe6f}' | '\u{ff01}'..='\u{ff60}' | '\u{ffe0}'..='\u{ffe6}' | '\u{1f300}'..='\u{1faff}' | '\u{20000}'..='\u{3fffd}')
}

// As many spaces as a terminal gives columns to the character.
pub(crate) fn spaces(c: char) -> &'static str
    ensures { result.now ≡ replicate (columns c) 32 }
{
    if is_narrow(c) {
        ""
    } else if is_east_asian(c) || is_full(c) {
        "  "
    } else {
        " "
    }
}
