//! Looks at UPDATE blocks.

use hal_values::Value;

/// Over what an UPDATE block was looked at, and after how many turns it ends.
#[derive(Drop)]
pub struct Look {
    pub store: Vec<Value>,
    pub turns: u16,
}
