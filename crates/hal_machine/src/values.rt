//! Values that are made to be of a kind, and shared cells as an UPDATE block sees them.

ghost use Rattle.std.specs.Prelude.{◌≡◌, ◌^◌, nat_lt};
ghost use Rattle.hal_states.specs.OfKinds.{nothing, lies_within, is_of, of_kind};
ghost use Rattle.hal_states.specs.Modes.{has_bit};

use hal_base::{SINGLE_LEAST, SINGLE_MOST};
use hal_values::{Kind, Text, Value};

/// Zero, zeros or the empty text.
pub fn nothing(kind: Kind) -> Value
    ensures { result ≡ nothing kind }
{
    match kind {
        Kind::Single => Value::Int(0),
        Kind::Double => Value::Int(0),
        Kind::Bits(len) => Value::Bits { len, word: 0 },
        Kind::Text(_) => Value::Text(Text::new()),
    }
}

/// Whether a number lies within bounds.
fn lies_within(low: i32, high: i32, number: i32) -> bool
    ensures { result ≡ lies_within low high number }
{
    !(number < low) && !(high < number)
}

/// Whether a word has so many bits at most.
fn has_bits_below(len: u8, word: u32) -> bool
    ensures { result ≡ nat_lt word (2 ^ len) }
{
    len >= 32 || word < 1u32 << len
}

/// Whether a value is of the kind.
#[tactic(auto, unfolding(hal_states::specs::OfKinds::is_of))]
fn is_of(kind: Kind, value: &Value) -> bool
    ensures { result ≡ is_of kind value.now }
{
    match (kind, value) {
        (Kind::Single, Value::Int(number)) => lies_within(SINGLE_LEAST, SINGLE_MOST, *number),
        (Kind::Double, Value::Int(number)) => lies_within(i32::MIN, i32::MAX, *number),
        (Kind::Bits(bits), Value::Bits { len, word }) => *len == bits
            && has_bits_below(bits, *word),
        (Kind::Text(most), Value::Text(text)) => text.bytes().len() <= usize::from(most),
        _ => false,
    }
}

/// The value, where it is of the kind.
pub fn of_kind(kind: Kind, value: Value) -> Value
    ensures { result ≡ of_kind kind value }
{
    if is_of(kind, &value) {
        value
    } else {
        nothing(kind)
    }
}

/// Whether a group is one of these.
pub fn has_bit(groups: u16, group: u8) -> bool
    ensures { result ≡ has_bit groups group }
{
    group < 16 && (groups >> group) % 2 == 1
}
