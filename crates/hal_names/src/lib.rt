//! What a name means, over the phrases of a set of files: the phrase that declares it in the nearest enclosing block, else in a template of the file.
#![tactic(auto)]

mod declarations;
mod declaring;
mod index;
mod key;
mod laws;
mod lookups;
mod means;
mod names;
mod spans;
mod tasks;

pub use declaring::declared_by;
pub use key::{Key, Space};
pub use laws::{
    a_key_is_found_at_its_first_declaration, blocks_lead_to_a_file, phrases_are_counted,
    the_search_never_runs_out, what_is_meant_declares_the_name,
};
pub use means::{is_compool_unit, prefaces_of};
pub use names::Names;
