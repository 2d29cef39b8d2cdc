//! Where the entries of a block lie.

ghost use Rattle.std.specs.Prelude.{◌≡◌, reverse};
ghost use Rattle.hal_errors.specs.Blocks.{first_latest};

/// A block that is entered: its entries begin here among those of all blocks, and end where those of the next block begin.
#[derive(Clone, Copy)]
pub(crate) struct Block {
    pub first: usize,
    /// Whether it is an UPDATE block.
    pub update: bool,
}

/// Where the entries of the last block begin.
pub(crate) fn first_latest(blocks: &[Block]) -> usize
    ensures { result ≡ first_latest (reverse blocks.now) }
{
    match blocks {
        [] => 0,
        [.., block] => block.first,
    }
}
