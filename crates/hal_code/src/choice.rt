/// What a byte chooses. A byte that chooses nothing is kept as it stands, and no image that is right has one.
#[derive(Clone, Copy, PartialEq, Eq)]
pub enum Choice<T> {
    Known(T),
    Other(u8),
}
