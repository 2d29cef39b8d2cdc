//! The names that the report shows of a set of files, with the elements that each of them has.

mod items;
mod lookups;
mod names;
mod paths;
mod places;
mod rows;
mod showing;

pub(crate) use lookups::lookups_of;
pub(crate) use names::report_names;
