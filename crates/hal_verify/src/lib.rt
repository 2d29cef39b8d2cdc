//! When an image is right: the first instruction that isn't, for every image. `specs/` says how what is noted of a block stands for the definitions.
#![tactic(auto)]

mod acting;
mod blocks;
mod body;
mod code;
mod counts;
mod cursor;
mod effects;
mod events;
mod finding;
mod flow;
mod held;
mod marking;
mod memory;
mod naming;
mod note;
mod noting;
mod operands;
mod room;
mod rooms;
mod scope;
mod sort;
mod sorts;
mod stack;
mod tables;
mod timing;
mod verifying;
mod viewing;
mod views;
mod worldly;

pub use verifying::{first_failure, first_fault, is_right, spread_kept};
