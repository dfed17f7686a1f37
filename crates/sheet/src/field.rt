// The decimal fields of a line.
ghost use Rattle.std.specs.Prelude.{◌≡◌};
ghost use Rattle.sheet.specs.Fields.{number_of, numbers_of, exactly};
ghost use Rattle.sheet.specs.FieldSteps.{with_digit, digits_after, FirstNumber};

use crate::bytes::length_before;

// The number with one more digit behind it, where it still has 32 bits.
fn with_digit(number: u32, byte: u8) -> Option<u32>
    ensures { result ≡ with_digit number byte }
{
    match byte {
        b'0'..=b'9' => number.checked_mul(10)?.checked_add(u32::from(byte - b'0')),
        _ => None,
    }
}

// The number that digits write.
// Stays: `parse` would also take a `+` in front, and only text, so that the bytes are gone over twice.
fn digits(field: &[u8]) -> Option<u32>
    ensures { result ≡ digits_after 0 field.now }
{
    let mut number = 0;
    for byte in field {
        number = with_digit(number, *byte)?;
    }
    Some(number)
}

// The number that a field writes: digits, with no 0 in front of another.
fn number(field: &[u8]) -> Option<u32>
    ensures { result ≡ number_of field.now }
{
    match field {
        [] | [b'0', _, ..] => None,
        _ => digits(field),
    }
}

// The number of the first field, and what stands behind that field.
// Stays: with the library's `split` in its place the check refuses the loop of `numbers`, which then carries an iterator under a const parameter.
fn first_number<'a>(fields: &'a [u8]) -> Option<(u32, &'a [u8])>
    ensures { FirstNumber fields.now result }
{
    let [b' ', rest @ ..] = fields else {
        return None;
    };
    let (first, behind) = rest.split_at(length_before(rest, b' '));
    Some((number(first)?, behind))
}

// The numbers of exactly `N` fields, each with one space in front.
pub(crate) fn numbers<const N: usize>(fields: &[u8]) -> Option<[u32; N]>
    ensures { result ≡ exactly N (numbers_of fields.now) }
{
    let mut found = [0; N];
    let mut rest = fields;
    for place in found.iter_mut() {
        let (first, behind) = first_number(rest)?;
        *place = first;
        rest = behind;
    }
    if rest.is_empty() { Some(found) } else { None }
}
