//! The rules of names, 601 to 608, over a set of files.
#![tactic(auto)]

mod builtin;
mod components;
mod events;
mod included;
mod labels;
mod repeated;
mod resolving;
mod rules;
mod sort;
mod sorts;
mod usage;
mod used;
mod uses;

pub use builtin::{Builtin, Form, builtin_named};
pub use events::{holds_event, is_in_event, limit_of, refers_to_event, sort_at};
pub use resolving::{check_names, resolve};
pub use rules::ruled;
pub use sort::Sort;
pub use sorts::{sort_of, type_among, type_of};
pub use usage::Usage;
pub use uses::unless;
