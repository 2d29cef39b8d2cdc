use hal_values::Kind;

/// What stands at a place of memory.
#[derive(Clone, Copy, PartialEq, Eq)]
pub(crate) enum Room {
    /// Values of this kind.
    Of(Kind),
    /// References to cells of the shape with this number.
    To(u32),
}
