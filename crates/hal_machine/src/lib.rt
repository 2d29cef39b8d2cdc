//! The machine that runs images: what it holds of a process, and its instructions. `specs/` says how the parts of the machine are seen as those of the
//! definitions, by which each instruction does what the definitions say.
#![tactic(auto)]

mod addressing;
mod asking;
mod back;
mod blocks;
mod comparing;
mod computing;
mod controlling;
mod converting;
mod elements;
mod errors;
mod held;
mod integers;
mod joining;
mod leaving;
mod loading;
mod machine;
mod operands;
mod printing;
mod pushing;
mod putting;
mod scheduling;
mod step;
mod strings;
mod taking;
mod testing;
mod times;
mod values;
mod viewing;

pub use back::Return;
pub use blocks::Blocks;
pub use controlling::{act_of, selector_of, side_of};
pub use held::Held;
pub use machine::{Machine, Setting};
pub use operands::{Operands, Place, Slot};
pub use scheduling::Written;
pub use step::{Again, Rest, Stepped, Wait};
pub use values::{has_bit, nothing, of_kind};
