// Characters and lines: what every matcher and the parser ask of bytes.
//
// `sets` says which characters `\d`, `\w` and `\s` take, `marks` which characters an expression gives a meaning of its own,
// `edges` whether bytes are UTF-8 and where a character begins, `leads` what a first byte of UTF-8 asks of the next ones,
// and `lines` cuts a sheet into its lines.
#![tactic(auto)]

pub mod edges;
pub mod leads;
pub mod lines;
pub mod marks;
pub mod sets;
