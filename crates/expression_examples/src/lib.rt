// Examples of the expression matcher, run.
//
// The expected answers are worked out by hand from the rules in docs/RULES.md.
#![tactic(auto)]

#[cfg(test)]
mod tests {
    use expression::ExpressionMatcher;
    use matcher::answer::{Answer, Illegal, Span};
    use matcher::search::Matcher;
    use std::alloc::Global;
    use table::fill::Table;

    // expression, line, place, and where the match begins and ends
    const FOUND: [(&[u8], &[u8], usize, usize, usize); 48] = [
        // characters, bare, marked and above 127
        (b"b", b"abc", 0, 1, 2),
        (b"#&-~", b"a#&-~", 0, 1, 5),
        (
            br"\\\.\+\*\?\(\)\|\[\]\{\}\^\$\#\&\-\~",
            br"\.+*?()|[]{}^$#&-~",
            0,
            0,
            18,
        ),
        (b"\xc3\xb6", b"K\xc3\xb6rner", 0, 1, 3),
        (b"\xe2\x82\xac", b"5 \xe2\x82\xac", 0, 2, 5),
        (b"\xf0\x9f\x8d\x9e", b"a\xf0\x9f\x8d\x9e", 0, 1, 5),
        // `.` takes every character but byte 10
        (b".", b"\n\xc3\xb6", 0, 1, 3),
        (b"a.c", b"abcadc", 1, 3, 6),
        // the sets
        (br"\d", b"ab7", 0, 2, 3),
        (br"\w", b" -_", 0, 2, 3),
        (br"\s", b"a\x0b", 0, 1, 2),
        (br"\d\w\s", b"5g 5 ", 0, 0, 3),
        // classes: characters, ranges, sets, escaped marks
        (b"[kg]", b"5 kg", 0, 2, 3),
        (b"[a-c]", b"dcb", 0, 1, 2),
        (br"[\d,]", b"a,5", 0, 1, 2),
        (br"[\]\-\\]", b"a-", 0, 1, 2),
        (br"[\#-\&]", b"'%", 0, 1, 2),
        // the complement takes byte 10 and characters above 127
        (b"[^a]", b"a\n", 0, 1, 2),
        (b"[^a]", b"a\xc3\xb6", 0, 1, 3),
        (br"[^\w ]", b"a b;", 0, 3, 4),
        // `^` at place 0, `$` at the end and before a last byte 10
        (b"^a", b"aa", 0, 0, 1),
        (b"^", b"a", 0, 0, 0),
        (b"a$", b"aa", 0, 1, 2),
        (b"a$", b"aa\n", 0, 1, 2),
        (b"$", b"a\n", 0, 1, 1),
        (b"$", b"a\n", 2, 2, 2),
        (b"^$", b"", 0, 0, 0),
        // repeats are greedy and give back
        (b"a?", b"aa", 0, 0, 1),
        (b"a?", b"baa", 0, 0, 0),
        (b"a*", b"aab", 0, 0, 2),
        (b"a+", b"baab", 0, 1, 3),
        (b"a*ab", b"aaab", 0, 0, 4),
        (b"a+a", b"aaa", 0, 0, 3),
        (b"a?a", b"a", 0, 0, 1),
        (b".*b", b"abab", 0, 0, 4),
        (b"[^;]*;", b"a;b;", 0, 0, 2),
        (b"\xc3\xb6+", b"\xc3\xb6\xc3\xb6", 0, 0, 4),
        // the earliest begin, then the first alternative, then the longest earlier repeat
        (b"b|a", b"ab", 0, 0, 1),
        (b"a|ab", b"ab", 0, 0, 1),
        (b"ab|a", b"ab", 0, 0, 2),
        (b"x|bc|b", b"abc", 0, 1, 3),
        (b"a*|b", b"b", 0, 0, 0),
        (b"|a", b"a", 0, 0, 0),
        (b"", b"ab", 1, 1, 1),
        (b"a|", b"b", 0, 0, 0),
        // a backslash and digit stands nowhere, other alternatives still do
        (br"\1|b", b"1b", 0, 1, 2),
        // from the place on
        (b"a", b"aa", 1, 1, 2),
        (b"a", b"ba\xc3\xb6a", 2, 4, 5),
    ];

    // expression, line, place, and the groups from 1 on
    const GROUPS: [(&[u8], &[u8], usize, [Option<(usize, usize)>; 4]); 8] = [
        (
            br"(\d+) ([kg]+)",
            b"5 kg",
            0,
            [Some((0, 1)), Some((2, 4)), None, None],
        ),
        // numbered by opening
        (
            b"((a)(b))",
            b"ab",
            0,
            [Some((0, 2)), Some((0, 1)), Some((1, 2)), None],
        ),
        (
            b"(a(b)c)(d)",
            b"abcd",
            0,
            [Some((0, 3)), Some((1, 2)), Some((3, 4)), None],
        ),
        // groups of other alternatives are absent
        (b"(a)|(b)", b"b", 0, [None, Some((0, 1)), None, None]),
        (
            b"(a)|(b)|((c))",
            b"c",
            0,
            [None, None, Some((0, 1)), Some((0, 1))],
        ),
        // a group may be empty, and the first takes what it can
        (
            b"(a*)(a*)",
            b"aa",
            0,
            [Some((0, 2)), Some((2, 2)), None, None],
        ),
        (
            b"(a*)(a)",
            b"aa",
            0,
            [Some((0, 1)), Some((1, 2)), None, None],
        ),
        (b"a()b", b"ab", 0, [Some((1, 1)), None, None, None]),
    ];

    // expression, line and place
    const NOTHING: [(&[u8], &[u8], usize); 14] = [
        (b"a", b"b", 0),
        (b"a", b"A", 0),
        (b"^a", b"aa", 1),
        (b"a$", b"a\nb", 0),
        (b"a$", b"a\n\n", 0),
        (b".", b"\n", 0),
        (b"[^a\n]", b"a\n", 0),
        (b"a+a+", b"a", 0),
        (br"\1", b"1", 0),
        (br"\w", b"\xc3\xb6", 0),
        // off an edge, past the end, not UTF-8
        (b"", b"\xc3\xb6", 1),
        (b"", b"a", 2),
        (b"a", b"a\xff", 0),
        (b"a", b"", 0),
    ];

    // expression, and where it is refused
    const REFUSED: [(&[u8], usize); 32] = [
        (b"*", 0),
        (b")", 0),
        (b"]", 0),
        (b"{", 0),
        (b"a)", 1),
        (b"(a", 2),
        (b"(a|", 2),
        (b"(((((((((((((((())))))))))))))))", 15),
        (b"[a-a]", 3),
        (b"[b-a]", 3),
        (br"[\~-\", 4),
        (b"[\x7f-", 2),
        (br"[\1", 2),
        (br"[\d-", 3),
        (b"[a", 2),
        (b"[]", 1),
        (b"[^]", 2),
        (b"[-]", 1),
        (b"[\xc3\xb6]", 1),
        (br"\q", 1),
        (br"\", 1),
        (br"a\", 2),
        (br"\1*", 2),
        (b"^*", 1),
        (b"$+", 1),
        (b"(*", 1),
        (b"a**", 2),
        // inside a character
        (b"\xe2\x82a", 2),
        (b"\xc0", 0),
        (b"\xe0\x80", 1),
        (b"\xed\xa0", 1),
        (b"\xf4\x90", 1),
    ];

    // What the contract of the search says is not needed here.
    fn answer(heap: Global, expression: &[u8], line: &[u8], place: usize) -> Answer {
        ExpressionMatcher::new(heap).search(expression, line, place)
    }

    fn is_group(answer: &Answer, k: usize, expected: Option<(usize, usize)>) -> bool {
        let expected = expected.map(|(begin, end)| Span { begin, end });
        matches!(answer, Ok(Some(region)) if region.group(k) == expected)
    }

    #[test]
    fn found_where_the_preferred_way_lies(rt: HostRuntime) {
        for (expression, line, place, begin, end) in FOUND {
            assert!(rt;
                is_group(
                    &answer(rt.alloc(), expression, line, place),
                    0,
                    Some((begin, end))
                )
            );
        }
    }

    #[test]
    fn groups_lie_where_their_brackets_stood(rt: HostRuntime) {
        for (expression, line, place, groups) in GROUPS {
            let found = answer(rt.alloc(), expression, line, place);
            for (k, group) in groups.iter().enumerate() {
                assert!(rt; is_group(&found, k + 1, *group));
            }
            assert!(rt; is_group(&found, 5, None));
        }
    }

    #[test]
    fn nothing_where_there_is_no_way(rt: HostRuntime) {
        for (expression, line, place) in NOTHING {
            assert_eq!(rt; answer(rt.alloc(), expression, line, place), Ok(None));
        }
    }

    // On an empty line, within one that is not UTF-8, and past a line's end.
    #[test]
    fn refused_where_no_legal_expression_goes_on(rt: HostRuntime) {
        for (expression, at) in REFUSED {
            assert_eq!(rt; answer(rt.alloc(), expression, b"", 0), Err(Illegal { at }));
            assert_eq!(rt;
                answer(rt.alloc(), expression, b"\xff\xff", 1),
                Err(Illegal { at })
            );
            assert_eq!(rt;
                answer(rt.alloc(), expression, b"a", 9),
                Err(Illegal { at })
            );
        }
    }

    // Where the quick tries do not suffice.
    #[test]
    fn many_repeats_are_no_trouble(rt: HostRuntime) {
        let line = [b'a'; 200];
        assert_eq!(rt;
            answer(rt.alloc(), b"a*a*a*a*a*a*a*a*a*a*a*a*b", &line, 0),
            Ok(None)
        );
        assert!(rt;
            is_group(
                &answer(rt.alloc(), b"(a*)a*a*a*a*a*a*a*a*a*a*a(a*)$", &line, 0),
                1,
                Some((0, 199))
            )
        );
        assert!(rt;
            is_group(
                &answer(rt.alloc(), b"a?a?a?a?a?a?a?a?a?a?a?a?(a+)b|a+", &line, 3),
                0,
                Some((3, 200))
            )
        );
    }

    // A table of any bytes, of those that are no legal expression too.
    #[test]
    fn tables_of_any_bytes_are_filled(rt: HostRuntime) {
        let expressions: [&[u8]; 4] = [b"", b"(a*)a$", b"(a", b"\xff"];
        for expression in expressions {
            assert!(rt; Table::fill_bytes(rt.alloc(), expression, "aab").is_ok());
        }
    }
}
