//! What addresses lead to.

/// What the address of data is to lead to.
#[derive(Clone, Copy)]
pub enum Aim {
    /// One cell.
    Cell,
    /// The cells of the shape with this number.
    Shape(u32),
}
