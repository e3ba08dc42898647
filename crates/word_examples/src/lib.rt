// Examples of the word matcher: computed from its definitions, and run.
//
// The expected answers are worked out by hand from the rules in docs/RULES.md.
#![tactic(auto)]

ghost use Rattle.std.specs.Prelude.{◌≡◌, true};
ghost use Rattle.word_examples.specs.Worked.{Places, Answers};

// The definitions give the worked examples.
fn worked_examples_stand() -> bool
    ensures yes { result ≡ true }
    ensures places { Places }
    ensures answers { Answers }
{
    true
}

#[cfg(test)]
mod tests {
    use matcher::answer::{Answer, Illegal, Region, Span};
    use matcher::search::Matcher;
    use word::WordMatcher;

    // expression, line, place, and where the word that is found begins and ends
    const FOUND: [(&[u8], &[u8], usize, usize, usize); 16] = [
        // letters match in either case; no other character does
        (b"salt", b"5 g SaLt", 0, 4, 8),
        (b"SALT", b"salt", 0, 0, 4),
        (b"\xc3\xb6l", b"2 \xc3\xb6L", 0, 2, 5),
        // nothing touches a word
        (b"salt", b"basalt, salt-free", 0, 8, 12),
        (b"l", b"\xc3\x96l 5 l", 0, 2, 3),
        // the earliest begin, then the first word
        (b"b|a", b"a b", 0, 0, 1),
        (b"rye|rye-flour", b"rye-flour", 0, 0, 3),
        (b"rye-flour|rye", b"rye-flour", 0, 0, 9),
        // from the place on
        (b"salt", b"salt salt", 1, 5, 9),
        (b"salt", b"salt salt", 0, 0, 4),
        // marks, bare and with a backslash; a backslash and digit stands nowhere, other words still do
        (b"#&-~", b"#&-~", 0, 0, 4),
        (br"\#\&\-\~", b"#&-~", 0, 0, 4),
        (
            br"\\\.\+\*\?\(\)\|\[\]\{\}\^\$",
            br"\.+*?()|[]{}^$",
            0,
            0,
            14,
        ),
        (br"a\1|b", b"a1 b", 0, 3, 4),
        // a longer character
        (b"\xe2\x82\xac", b"=\xe2\x82\xac", 1, 1, 4),
        (b"\xf0\x9f\x8d\x9e", b"\xf0\x9f\x8d\x9e", 0, 0, 4),
    ];

    // expression, line and place
    const NOTHING: [(&[u8], &[u8], usize); 14] = [
        (b"\xc3\xb6l", b"\xc3\x96L", 0),
        (b"@", b"`", 0),
        (b"1", b"Q", 0),
        (b"salt", b"salted", 0),
        (b"salt", b"basalt", 0),
        (b"salt", b"_salt", 0),
        (b"salt", b"salt5", 0),
        (b"salt", b"salt", 1),
        (br"a\1", b"a1 a", 0),
        // off an edge, past the end, not UTF-8, empty
        (b"\xe2\x82\xac", b"=\xe2\x82\xac", 2),
        (b"a", b"a", 2),
        (b"a", b"a\xff", 0),
        (b"a", b"", 0),
        (b"\xe2\x82\xac", b"9\xe2\x82\xac", 1),
    ];

    // expression, and where it is refused
    const REFUSED: [(&[u8], usize); 16] = [
        (b"", 0),
        (b"|", 0),
        (b"a|", 2),
        (b"a||", 2),
        (b"a.", 1),
        (br"\d", 1),
        (br"a\", 2),
        (b"(a)", 0),
        // inside a character
        (b"\xe2\x82a", 2),
        (b"a\xc3", 2),
        (b"\xc0", 0),
        (b"\xe0\x80", 1),
        (b"\xed\xa0", 1),
        (b"\xf4\x90", 1),
        (b"\xf0\x8f", 1),
        (b"\xff", 0),
    ];

    // What the contract of `search` says is not needed here.
    fn answer(expression: &[u8], line: &[u8], place: usize) -> Answer {
        WordMatcher.search(expression, line, place)
    }

    // Group 0 is the span, and no other group is present.
    fn spans(answer: &Answer, span: Span) -> bool {
        let Ok(Some(region)) = answer else {
            return false;
        };
        let mut alone = true;
        for k in 1..17 {
            alone = alone && region.group(k).is_none();
        }
        alone && region.group(0) == Some(span)
    }

    #[test]
    fn found_where_a_word_counts(rt: HostRuntime) {
        for (expression, line, place, begin, end) in FOUND {
            let region = Region::spanning(begin, end);
            let found = answer(expression, line, place);
            assert!(rt; spans(&found, Span { begin, end }));
            assert_eq!(rt; found, Ok(Some(region)));
        }
    }

    #[test]
    fn nothing_where_none_counts(rt: HostRuntime) {
        for (expression, line, place) in NOTHING {
            assert_eq!(rt; answer(expression, line, place), Ok(None));
        }
    }

    // On an empty line, within one that is not UTF-8, and past a line's end.
    #[test]
    fn refused_where_no_legal_expression_goes_on(rt: HostRuntime) {
        for (expression, at) in REFUSED {
            assert_eq!(rt; answer(expression, b"", 0), Err(Illegal { at }));
            assert_eq!(rt; answer(expression, b"\xff\xff", 1), Err(Illegal { at }));
            assert_eq!(rt; answer(expression, b"a", 9), Err(Illegal { at }));
        }
    }
}
