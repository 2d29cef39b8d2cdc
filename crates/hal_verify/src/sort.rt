use hal_values::Kind;

/// What an operand is.
#[derive(Clone, Copy, PartialEq, Eq)]
pub(crate) enum Sort {
    Integer,
    Bits,
    Text,
    /// The address of a cell of this kind.
    Address(Kind),
    /// The address of the cells of the shape with this number.
    Area(u32),
}
