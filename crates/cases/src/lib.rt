// The records of the case format, read field by field.
//
// A record is a line of fields parted by one space each, as `call next_line 0 73616c74`. `Fields` is an iterator over them: `word`
// gives the next as it stands, or says that it is missing, `number` a decimal number up to 4,294,967,295, `bytes` bytes in lower-case
// hexadecimal, `-` for none, and `end` says that none is left. specs/Fields, specs/Number and specs/Hex say what each reads, and what
// it refuses.
#![tactic(auto)]

pub mod fault;
pub mod fields;
mod hex;
mod number;

pub use fault::Fault;
pub use fields::Fields;
