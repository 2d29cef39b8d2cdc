//! The rules of selections and shapes: 704 of ranges of copies and of array places, 705 of arguments whose kind or shape differs from the parameter's, over a set of files.
#![tactic(auto)]

mod arguments;
mod arrays;
mod called;
mod parameters;
mod paths;
mod ranges;
mod reach;
mod reaches;
mod selections;
mod span;
mod spans;
mod structures;

pub use called::misshaped;
pub use ranges::misranged;
pub use reach::Reach;
pub use span::Span;
