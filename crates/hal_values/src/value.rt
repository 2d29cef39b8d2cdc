use crate::text::Text;

/// The kind of a cell.
#[derive(Clone, Copy, PartialEq, Eq)]
pub enum Kind {
    /// An integer of 16 bits.
    Single,
    /// An integer of 32 bits.
    Double,
    /// A string of so many bits, 1 to 32.
    Bits(u8),
    /// A text of at most so many bytes, 1 to 255.
    Text(u8),
}

/// What an expression comes to, and what a cell holds.
#[derive(Drop, PartialEq, Eq)]
pub enum Value {
    Int(i32),
    /// The last `len` bits of the word, whose other bits are zeros.
    Bits { len: u8, word: u32 },
    Text(Text),
}

impl Value {
    ghost use Rattle.std.specs.Prelude.{◌≡◌};

    /// The same value once more.
    pub fn copy(&self) -> Value
        ensures { result ≡ self.now }
    {
        match self {
            Value::Int(number) => Value::Int(*number),
            Value::Bits { len, word } => Value::Bits {
                len: *len,
                word: *word,
            },
            Value::Text(text) => Value::Text(text.copy()),
        }
    }
}
