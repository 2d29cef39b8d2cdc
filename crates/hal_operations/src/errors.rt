//! The errors that operations raise.

use hal_values::ErrNo;

/// An integer is outside its range.
pub(crate) const RANGE_ERROR: ErrNo = ErrNo {
    group: 1,
    number: 1,
};

/// A division by zero.
pub(crate) const ZERO_DIVISOR: ErrNo = ErrNo {
    group: 1,
    number: 2,
};

/// A component subscript is out of range.
pub(crate) const NO_PLACE: ErrNo = ErrNo {
    group: 1,
    number: 4,
};

/// A text isn't an integer.
pub(crate) const NO_INTEGER: ErrNo = ErrNo {
    group: 1,
    number: 5,
};
