// Examples of the rules of characters, lines and matches, run. Those of the word matcher stand in `word_examples`.
//
// The expected answers are worked out by hand from the rules in docs/RULES.md.
#![tactic(auto)]

#[cfg(test)]
mod tests {
    use chars::edges::{is_edge, is_text, next_edge};
    use chars::lines::{lines, next_line};
    use chars::marks::{is_bare, is_mark};
    use chars::sets::Set;
    use matcher::answer::Span;
    use matches::step::next_place;

    // a byte, and whether it is in `\d`, in `\w` and in `\s`
    const SETS: [(u8, bool, bool, bool); 22] = [
        (8, false, false, false),
        (9, false, false, true),
        (13, false, false, true),
        (14, false, false, false),
        (31, false, false, false),
        (b' ', false, false, true),
        (b'!', false, false, false),
        (b'/', false, false, false),
        (b'0', true, true, false),
        (b'9', true, true, false),
        (b':', false, false, false),
        (b'@', false, false, false),
        (b'A', false, true, false),
        (b'Z', false, true, false),
        (b'[', false, false, false),
        (b'_', false, true, false),
        (b'`', false, false, false),
        (b'a', false, true, false),
        (b'z', false, true, false),
        (b'{', false, false, false),
        (128, false, false, false),
        (255, false, false, false),
    ];

    // Whether the first line of the bytes is this, and the rest that.
    fn is_cut(bytes: &[u8], line: &[u8], rest: &[u8]) -> bool {
        matches!(next_line(bytes), Some((first, behind)) if first == line && behind == rest)
    }

    #[test]
    fn sets_take_what_they_should(rt: HostRuntime) {
        for (b, digit, word, space) in SETS {
            assert!(rt; Set::Digits.takes(b) == digit);
            assert!(rt; Set::Words.takes(b) == word);
            assert!(rt; Set::Spaces.takes(b) == space);
        }
    }

    // Four of the marks stand bare, and every other ASCII character that is no mark.
    #[test]
    fn marks_are_eighteen(rt: HostRuntime) {
        for b in br"\.+*?()|[]{}^$" {
            assert!(rt; is_mark(*b) && !is_bare(*b));
        }
        for b in b"#&-~" {
            assert!(rt; is_mark(*b) && is_bare(*b));
        }
        for b in b"az09_ \n!\"%',/:;<=>@`\x00\x7f" {
            assert!(rt; !is_mark(*b) && is_bare(*b));
        }
        assert!(rt; !is_mark(128) && !is_bare(128));
    }

    #[test]
    fn edges_lie_between_characters(rt: HostRuntime) {
        let line = "a\u{20ac}";
        assert!(rt; is_edge(line, 0) && is_edge(line, 1) && is_edge(line, 4));
        assert!(rt; !is_edge(line, 2) && !is_edge(line, 3) && !is_edge(line, 5));
        assert!(rt; next_edge(line, 0) == Some(1) && next_edge(line, 1) == Some(4));
        assert!(rt; next_edge(line, 2) == Some(4) && next_edge(line, 4).is_none());
        assert!(rt; is_text(b"a\xe2\x82\xac") && is_text(b""));
        assert!(rt; !is_text(b"\xe2\x82") && !is_text(b"\xc0\x80") && !is_text(b"\xed\xa0\x80"));
    }

    #[test]
    fn lines_end_after_byte_10(rt: HostRuntime) {
        assert!(rt; is_cut(b"a\n\nb", b"a\n", b"\nb"));
        assert!(rt; is_cut(b"\nb", b"\n", b"b"));
        assert!(rt; is_cut(b"b\r", b"b\r", b""));
        assert!(rt; next_line(b"").is_none());
    }

    // The lines in order, numbered from 1, and no line of nothing.
    #[test]
    fn lines_come_in_order(rt: HostRuntime) {
        let wanted: [(u64, &[u8]); 3] = [(1, b"a\n"), (2, b"\n"), (3, b"b")];
        for ((number, line), expected) in (1u64..).zip(lines(b"a\n\nb")).zip(wanted) {
            assert!(rt; (number, line) == expected);
        }
        assert!(rt; lines(b"a\n\nb").count() == 3 && lines(b"").next().is_none());
    }

    // At a match's end; after an empty match at the next edge, and nowhere at the line's end.
    #[test]
    fn matches_move_on(rt: HostRuntime) {
        let line = "a\u{20ac}";
        assert!(rt; next_place(line, Span { begin: 0, end: 1 }) == Some(1));
        assert!(rt; next_place(line, Span { begin: 1, end: 1 }) == Some(4));
        assert!(rt; next_place(line, Span { begin: 4, end: 4 }).is_none());
    }
}
