/// What is noted of an instruction before the jumps of its block are looked at.
#[derive(Clone, Copy, PartialEq, Eq)]
pub(crate) struct Note {
    /// Whether its own operands are right and the stack before it fits.
    pub fits: bool,
    /// How many operands stand before it.
    pub depth: usize,
    /// The UPDATE block in which it stands, by the number of its OPEN in the block.
    pub part: Option<usize>,
}
