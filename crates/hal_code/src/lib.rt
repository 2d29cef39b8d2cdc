//! The machine that units are compiled for: its instructions, the images that it runs, what each instruction does, and what its processes ask for.
//! `specs/` has the machine as plain definitions, and images as loads of the executive; what holds of each image is said in `laws`.
#![tactic(auto)]

mod choice;
mod heap_text;
mod image;
mod instr;
mod laws;
mod operand;
mod row;

pub use choice::Choice;
pub use heap_text::HeapText;
pub use image::ImageParts;
pub use instr::Instr;
pub use laws::{
    a_right_image_is_a_load, an_image_with_right_tables_is_a_load, each_move_lowers_the_rank,
    the_code_of_a_right_image_goes_on,
};
pub use operand::{Delay, EventChange, Limit, Places, Response, Round, Start, Time};
pub use row::{Base, Block, Dimension, OwnPlace, Process, ResultKind, Run, Target, View};
