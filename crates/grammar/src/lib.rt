// The grammar of expressions: which are legal, what they are written of, and which characters a class takes.
//
// `(\d+) ?[kK]?g|salt$` is legal. `(a|b` is refused at 2, since a `|` divides whole alternatives, and groups end within one;
// `[b-a]` at 3, since a range goes up. An expression is alternatives, perhaps empty, divided by `|`, and an alternative is
// written of
//   a character, bare or, where it is a mark, behind a backslash (of the 18 marks only `# & - ~` stand bare);
//   `.`, the sets `\d`, `\w` and `\s`, and classes, each of which takes one character, as a character does; behind each of
//   these `?`, `*` or `+` may stand;
//   `^` and `$`, a backslash and a digit, which matches nowhere, and `(` and `)`, balanced, at most 15 pairs in all.
// A class has one member or more between `[` and `]`, all of ASCII: characters (every mark with its backslash), ranges up to a
// higher character, and sets; behind `[^` it takes what these do not take.
//
// specs/Grammar has the legal expressions by how they are written. `legality` says whether bytes are one of them and, if not,
// how much of them some legal expression shares. `expression` keeps a legal one as text, since each is UTF-8; `items` reads one
// item after the other from it, or one at a place of any bytes, and `class` asks a class whether it takes a character. Nothing is
// allocated, and any length is read.
#![tactic(auto)]

mod bytes;
pub mod class;
pub mod examples;
pub mod expression;
pub mod items;
pub mod legality;
mod reader;
