//! Which processes reach a block.

ghost use Rattle.std.specs.Prelude.{◌≡◌};
ghost use Rattle.hal_meaning.specs.Places as places;

/// Whether several processes reach a block.
pub(crate) fn are_several(reaching: &[usize]) -> bool
    ensures { result ≡ places.are_several reaching.now }
{
    match reaching {
        [_, _, ..] => true,
        _ => false,
    }
}

/// Whether one process alone reaches a block; one that none reaches counts as the first one's (language document, Places).
pub fn is_sole(all: &[usize], process: usize, reaching: &[usize]) -> bool
    ensures { result ≡ places.is_sole all.now process reaching.now }
{
    match reaching {
        [] => match all {
            [] => false,
            [first, ..] => process == *first,
        },
        [one] => process == *one,
        [_, _, ..] => false,
    }
}
