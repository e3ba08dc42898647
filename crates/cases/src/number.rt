// A decimal number.
ghost use Rattle.std.specs.Prelude.{◌≡◌, MatchResult};
ghost use Rattle.cases.specs.Number.{grown as grown_to, number_of, Writes, Blamed};

use crate::fault::Fault;

// The number with one digit more.
fn grown(value: u32, digit: u8) -> Result<u32, Fault>
    ensures { result ≡ grown_to value digit }
{
    if !digit.is_ascii_digit() {
        return Err(Fault::NoDigit);
    }
    value
        .checked_mul(10)
        .and_then(|tens| tens.checked_add(u32::from(digit - b'0')))
        .ok_or(Fault::TooLarge)
}

// The number that the field writes in decimal digits, one or more. The first digit at fault is blamed.
pub(crate) fn read_number(field: &[u8]) -> Result<u32, Fault>
    ensures value { result ≡ number_of field.now }
    ensures law { MatchResult result (λ n. Writes n field.now) (λ x. Blamed x field.now) }
{
    if field.is_empty() {
        return Err(Fault::NoDigits);
    }
    field
        .iter()
        .try_fold(0, |value, digit| grown(value, *digit))
}
