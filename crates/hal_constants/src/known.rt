//! The values of constants that are known.

use hal_values::Value;

/// The values of the constants of a set of files, as far as they are known: of each phrase its value, if it has one.
#[derive(Drop)]
pub struct Known {
    pub(crate) values: Vec<Option<Box<Value>>>,
}
