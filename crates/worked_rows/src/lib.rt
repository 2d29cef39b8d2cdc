//! Laws that follow from the definitions alone: which words and which file a text has, that it breaks no rule of names or types, and which lines a script
//! has. Each was worked out by hand from docs/LANGUAGE.md and docs/EXECUTIVE.md.
#![tactic(auto)]

mod laws;

pub use laws::{
    count_is_read, count_is_typed, hello_is_cut, hello_is_read, hello_is_spelled, hello_is_typed,
    run_10_is_a_script, ticks_are_a_script,
};
