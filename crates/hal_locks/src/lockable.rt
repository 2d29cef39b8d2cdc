//! Where LOCK may stand.

/// Which LOCK a name that is declared may have.
#[derive(Clone, Copy, PartialEq, Eq)]
pub enum Lockable {
    /// A number: data of a COMPOOL, or directly in a PROGRAM.
    Number,
    /// A star: an ASSIGN parameter.
    Star,
    /// None.
    Neither,
}
