//! The lock groups of the UPDATE blocks of a unit.

ghost use Rattle.std.specs.Prelude.{◌≡◌, slice_get, unwrap_or};

/// Of each mark of a unit the lock groups of the UPDATE block that it is, a bit for each; 0 where it is none (language document, Lock groups).
#[derive(Clone, Copy)]
pub struct Locks<'a> {
    pub groups: &'a [u16],
}

/// The groups of the mark with this number, 0 where there is none.
pub(crate) fn groups_at(locks: &Locks<'_>, mark: usize) -> u16
    ensures { result ≡ unwrap_or (slice_get locks.now.groups.now mark) 0 }
{
    match locks.groups.get(mark) {
        None => 0,
        Some(groups) => *groups,
    }
}
