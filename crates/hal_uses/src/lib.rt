//! The rules of how names are used: 328, 329, 705 of the number of arguments, 707, 709, 711, 712, 715, 716, 719, 721 to 723 over a set of files. Each public function says which of
//! them a phrase breaks, and where.
#![tactic(auto)]

mod arguments;
mod calls;
mod forms;
mod real;
mod received;
mod receivers;
mod signature;
mod subscripts;

pub use calls::miscalled;
pub use forms::{misreturned, no_error, no_exponent};
pub use real::{no_process, unlatched};
pub use receivers::misreceived;
pub use signature::Signature;
pub use subscripts::missubscripted;
