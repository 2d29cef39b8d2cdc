//! What a datum of a script is for a receiver. It takes no memory.

ghost use Rattle.std.specs.Prelude.{◌≡◌, ◌<◌, ◌≤◌, nat_le, length, min, if◌then◌else◌};
ghost use Rattle.std.specs.List.{list_all};
ghost use Rattle.hal_base.specs.Digits.{is_digit};
ghost use Rattle.exec_model.specs.Data.{is_bit, is_bits, is_number, number_in, plus_number, minus_number, integer_datum, integer_value, datum_value};

use hal_values::{Kind, Text, Value};

/// No integer is this great, nor is any word of bits.
const NUMBER_LIMIT: u64 = 4_294_967_296;

fn is_digit(byte: u8) -> bool
    ensures { result ≡ is_digit byte }
{
    byte.is_ascii_digit()
}

fn are_digits(bytes: &[u8]) -> bool
    ensures { result ≡ list_all is_digit bytes.now }
{
    bytes.iter().all(|byte| is_digit(*byte))
}

fn is_bit(byte: u8) -> bool
    ensures { result ≡ is_bit byte }
{
    matches!(byte, b'0' | b'1')
}

/// The number that digits write in a base, or the limit where that is less.
fn capped_number(base: u64, digits: &[u8]) -> u64
    requires least { 1 ≤ base }
    requires most { base ≤ 10 }
    ensures { result ≡ min (number_in base digits.now) NUMBER_LIMIT }
{
    let mut number: u64 = 0;
    for digit in digits {
        number = (base * number + u64::from(digit.saturating_sub(b'0'))).min(NUMBER_LIMIT);
    }
    number
}

/// The number that digits write, if these are digits and it is at most this.
fn number_up_to(most: u64, digits: &[u8]) -> Option<u64>
    requires { most < NUMBER_LIMIT }
    ensures { result ≡ (if is_number most digits.now then Some (number_in 10 digits.now) else None) }
{
    if digits.is_empty() || !are_digits(digits) {
        return None;
    }
    let number = capped_number(10, digits);
    if number <= most { Some(number) } else { None }
}

fn plus_number(digits: &[u8]) -> Option<i32>
    ensures { result ≡ plus_number digits.now }
{
    match number_up_to(2_147_483_647, digits) {
        None => None,
        Some(number) => Some(number as i32),
    }
}

fn minus_number(digits: &[u8]) -> Option<i32>
    ensures { result ≡ minus_number digits.now }
{
    match number_up_to(2_147_483_648, digits) {
        None => None,
        Some(number) => Some(-(number as i64) as i32),
    }
}

fn integer_datum(bytes: &[u8]) -> Option<i32>
    ensures { result ≡ integer_datum bytes.now }
{
    match bytes {
        [] => None,
        [b'+', rest @ ..] => plus_number(rest),
        [b'-', rest @ ..] => minus_number(rest),
        _ => plus_number(bytes),
    }
}

fn integer_value(bytes: &[u8]) -> Option<Value>
    ensures { result ≡ integer_value (integer_datum bytes.now) }
{
    match integer_datum(bytes) {
        None => None,
        Some(number) => Some(Value::Int(number)),
    }
}

fn are_all_bits(bytes: &[u8]) -> bool
    ensures { result ≡ list_all is_bit bytes.now }
{
    bytes.iter().all(|byte| is_bit(*byte))
}

/// Whether these are 1 to 32 digits 0 and 1.
fn are_bits(bytes: &[u8]) -> bool
    ensures { result ≡ is_bits bytes.now }
{
    matches!(bytes.len(), 1..=32) && are_all_bits(bytes)
}

#[tactic(auto, using(crate::proofs::Numbers::bits_below))]
fn bits_value(bytes: &[u8]) -> Option<Value>
    ensures { result ≡ (if is_bits bytes.now then Some (Value.Bits (length bytes.now) (number_in 2 bytes.now)) else None) }
{
    if are_bits(bytes) {
        Some(Value::Bits {
            len: bytes.len() as u8,
            word: capped_number(2, bytes) as u32,
        })
    } else {
        None
    }
}

fn text_value(bytes: &[u8]) -> Option<Value>
    ensures { result ≡ (if nat_le (length bytes.now) 255 then Some (Value.Text bytes.now) else None) }
{
    match Text::of(bytes) {
        None => None,
        Some(text) => Some(Value::Text(text)),
    }
}

/// The value of a datum for a receiver of this kind, where it is of the kind.
pub(crate) fn datum_of(kind: Kind, bytes: &[u8]) -> Option<Value>
    ensures { result ≡ datum_value kind bytes.now }
{
    match kind {
        Kind::Single | Kind::Double => integer_value(bytes),
        Kind::Bits(_) => bits_value(bytes),
        Kind::Text(_) => text_value(bytes),
    }
}
