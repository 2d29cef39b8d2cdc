//! The pieces of a file: its lines by their first byte, comments, and the longest word at each byte.
#![tactic(auto)]

mod bit_literals;
mod bytes;
mod comments;
mod directives;
mod file;
mod item;
mod kinds;
mod letters;
mod lines;
mod literals;
mod names;
mod numbers;
mod piece;
mod replacements;
mod runs;
mod signs;

pub use bytes::is_blank;
pub use comments::comment_end;
pub use file::items;
pub use item::{Item, RightPiece, broken, right_piece};
pub use literals::literal_in;
pub use piece::{Piece, first_piece};
