//! A call.

/// A call, by the numbers of phrases: the unit in which it stands, and the block that is called.
#[derive(Clone, Copy)]
pub struct Call {
    pub from: usize,
    pub to: usize,
}
