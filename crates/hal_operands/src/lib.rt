//! The rules of operands: 322, 702, 703, 708, 713, 714, 717 and 720 over a set of files. Each public function says which rule of these a phrase breaks, and where.
#![tactic(auto)]

mod pairs;
mod taken;
mod times;
mod want;
mod wants;

pub use pairs::mismatched;
pub use taken::{takes, untaken};
pub use times::{mistimed, untimely};
pub use want::Want;
pub use wants::{misfit, misfit_at, unfit};
