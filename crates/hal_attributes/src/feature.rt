//! What attributes say.

/// What an attribute says, without its numbers.
#[derive(Clone, Copy, PartialEq, Eq)]
pub enum Feature {
    Array,
    Integer,
    Bits,
    Text,
    Event,
    Structure,
    Single,
    Double,
    Latched,
    Static,
    Automatic,
    Dense,
    Aligned,
    Lock,
    Initial,
    Constant,
}
