//! The rules of templates, 501 to 503, over a set of files: a written template equals its unit's own, its unit is in the set, and no two units have one name.
#![tactic(auto)]

mod alike;
mod checking;
mod counts;
mod entries;
mod heads;
mod items;
mod kinds;
mod laws;
mod leaves;
mod locks;
mod meanings;
mod own;
mod reading;
mod rules;
mod sizes;
mod structures;
mod templates;
mod traits;
mod values;

pub use checking::match_templates;
pub use laws::{
    a_written_template_gives_what_its_unit_shows, an_included_template_gives_what_its_unit_shows,
};
