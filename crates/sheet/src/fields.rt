// The fields of a line, and the number that a field writes.
ghost use Rattle.std.specs.Prelude.{◌≡◌, ◌^◌, ◌<◌, IfOk};
ghost use Rattle.sheet.specs.Checks.{first_fit, fault_notice};
ghost use Rattle.sheet.specs.Faults.{notice_of_field};
ghost use Rattle.sheet.specs.Lines.{fields_of};
ghost use Rattle.sheet.specs.Numerals.{is_negative, digits_of, digits_after, one_to_five, with_sign, value_of};
ghost use Rattle.sheet.specs.Sheet.{magnitude_checks, numeral_checks};

use crate::cuts::cut;
use crate::faults::{FieldFault, Spot};

/// The three fields of a line, as parts of it: a missing one is empty, and the third goes on to the
/// end.
#[derive(Clone, Copy)]
pub(crate) struct Fields<'a> {
    pub(crate) first: &'a [u8],
    pub(crate) second: &'a [u8],
    pub(crate) third: &'a [u8],
}

pub(crate) fn split_fields(text: &[u8]) -> Fields<'_>
    ensures first { result.first.now ≡ (fields_of text.now).first }
    ensures second { result.second.now ≡ (fields_of text.now).second }
    ensures third { result.third.now ≡ (fields_of text.now).third }
{
    let (first, rest) = cut(text, b' ');
    let (second, third) = cut(rest, b' ');
    Fields {
        first,
        second,
        third,
    }
}

/// The number that a field writes: an optional minus and one to five digits.
pub(crate) fn number(field: &[u8], spot: Spot) -> Result<i32, FieldFault>
    ensures fault { fault_notice notice_of_field result ≡ first_fit (numeral_checks spot field.now) }
    ensures value { IfOk result (λ n. n ≡ value_of field.now) }
{
    let (negative, digits) = split_sign(field);
    let n = magnitude(digits, spot)?;
    Ok(with_sign(n, negative))
}

/// Whether a field begins with a minus, and what it has besides.
fn split_sign(field: &[u8]) -> (bool, &[u8])
    ensures negative { result.0 ≡ is_negative field.now }
    ensures digits { result.1.now ≡ digits_of field.now }
{
    match field {
        [b'-', digits @ ..] => (true, digits),
        _ => (false, field),
    }
}

fn with_sign(n: u32, negative: bool) -> i32
    requires { n < 10 ^ 5 }
    ensures { result ≡ with_sign negative n }
{
    if negative {
        return -(n as i32);
    }
    n as i32
}

/// The number that one to five digits write.
fn magnitude(digits: &[u8], spot: Spot) -> Result<u32, FieldFault>
    ensures fault { fault_notice notice_of_field result
        ≡ first_fit (magnitude_checks spot digits.now) }
    ensures value { IfOk result (λ n. n ≡ digits_after 0 digits.now) }
    ensures small { IfOk result (λ n. n < 10 ^ 5) }
{
    if !one_to_five(digits) {
        return Err(FieldFault::NotANumber(spot));
    }
    let mut n = 0;
    for d in digits {
        if !d.is_ascii_digit() {
            return Err(FieldFault::NotANumber(spot));
        }
        n = n * 10 + u32::from(*d - b'0');
    }
    Ok(n)
}

fn one_to_five(digits: &[u8]) -> bool
    ensures { result ≡ one_to_five digits.now }
{
    !digits.is_empty() && digits.len() <= 5
}
