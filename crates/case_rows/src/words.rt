//! The words of HAL/S, tried on rows: what a line's text begins with, and how many bytes that takes; and the words of whole files
//! with their places, or the rule that a file breaks. Each row was worked out by hand from the words that say which word stands where.
//! `piece_writer` says how a row writes what a text begins with, and `file_writer` how it writes the words of a file.

mod beginning;
mod file_writer;
mod piece_writer;
mod trial;

pub(crate) use trial::WordRows;
