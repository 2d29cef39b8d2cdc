//! Images as bytes. `read_image` gives the image that has some bytes, `write_image` writes those that an image has, and `is_spelled` says whether it has some. `specs/` says part by part which bytes they are
//! (`Images.antt` first), and what an image keeps that has some; `laws` that it has no others and shares them with none.
#![tactic(auto)]

mod choices;
mod fault;
mod fits;
mod image;
mod instr_writing;
mod instrs;
mod kinds;
mod laws;
mod macros;
mod numbers;
mod operands;
mod parts;
mod row;
mod rows;
mod runs;
mod worked;

pub use fault::ReadFault;
pub use image::{is_spelled, read_image, write_image};
pub use laws::{images_have_one_spelling, rows_have_one_spelling};
pub use worked::{
    images_are_read, images_are_written, instructions_of_asking_are_written,
    instructions_of_control_are_written, instructions_of_values_are_written,
};
