//! The trees of HAL/S source, tried on rows: the tree that a source spells, or the rule that it breaks and its place. Each row
//! was worked out by hand from the grammar. `way` says what a row holds, and the modules `show_..` how it writes a tree.

mod longest;
mod nesting;
mod pen;
mod show_declarations;
mod show_expressions;
mod show_parts;
mod show_statements;
mod show_units;
mod source;
mod trial;
mod way;

pub(crate) use trial::TreeRows;
