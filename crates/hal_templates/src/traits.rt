//! What the attributes of a name mean.

use hal_values::Kind;

/// What the attributes of a name mean; sizes, values behind CONSTANT and the name of a structure template stand beside it. A kind or a group that no constant
/// tells is None.
#[derive(Clone, Copy)]
pub struct Traits {
    /// Whether there is a type.
    pub typed: bool,
    /// Whether it is EVENT.
    pub event: bool,
    /// The kind of the cells; None of structures.
    pub kind: Option<Kind>,
    /// Whether there is LOCK with a number.
    pub locked: bool,
    /// The number, 1 to 15; None without one.
    pub group: Option<u16>,
    /// Whether there is LOCK with a star.
    pub starred: bool,
    /// Whether there is LATCHED.
    pub latched: bool,
    /// Whether there is AUTOMATIC.
    pub automatic: bool,
    /// Whether there is CONSTANT.
    pub constant: bool,
}
