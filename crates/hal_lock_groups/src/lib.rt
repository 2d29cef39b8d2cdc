//! The lock groups that the UPDATE blocks of a set of files use.
#![tactic(auto)]

mod adding;
mod blocks;
mod groups;
mod naming;
mod plain;
mod shared;
mod updates;

pub use blocks::{all_groups, groups_at};
pub use updates::has_updates;
