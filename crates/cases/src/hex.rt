// Bytes in lower-case hexadecimal.
ghost use Rattle.std.specs.Prelude.{◌≡◌, MatchResult};
ghost use Rattle.std.specs.List.{concat};
ghost use Rattle.cases.specs.Hex.{digit_of, byte_of, written, spelled, Faulty};

use crate::fault::Fault;
use std::alloc::Global;

// The value of a digit; none of any other byte.
fn hex_digit(b: u8) -> Option<u8>
    ensures { result ≡ digit_of b }
{
    match b {
        b'0'..=b'9' => Some(b - b'0'),
        b'a'..=b'f' => Some(b - b'a' + 10),
        _ => None,
    }
}

// The byte of two digits.
fn hex_byte(high: u8, low: u8) -> Option<u8>
    ensures { result ≡ byte_of (digit_of high) (digit_of low) }
{
    Some(hex_digit(high)? * 16 + hex_digit(low)?)
}

// The bytes of the pairs of digits.
fn read_pairs(heap: Global, pairs: &[[u8; 2]]) -> Result<Vec<u8>, Fault>
    ensures { MatchResult result (λ v. written v.items ≡ concat pairs.now) (λ x. Faulty x (concat pairs.now)) }
{
    let mut bytes = Vec::new(heap);
    for [high, low] in pairs {
        bytes.push(hex_byte(*high, *low).ok_or(Fault::NoHexadecimal)?)?;
    }
    Ok(bytes)
}

// The bytes that the field writes in hexadecimal, two digits a byte; `-` writes none.
pub(crate) fn read_bytes(heap: Global, field: &[u8]) -> Result<Vec<u8>, Fault>
    ensures { MatchResult result (λ v. spelled v.items ≡ field.now) (λ x. Faulty x field.now) }
{
    if field.is_empty() {
        return Err(Fault::NoBytes);
    }
    if field == b"-".as_slice() {
        return Ok(Vec::new(heap));
    }
    let (pairs, odd) = field.as_chunks::<2>();
    if !odd.is_empty() {
        return Err(Fault::OddDigits);
    }
    read_pairs(heap, pairs)
}
