//! Scripts and journals as texts: what each line of a script is, which line is the first faulty one, and
//! how a script is read; and how a journal is written, one line per event.
#![tactic(auto)]

mod fault;
mod given;
mod journal;
mod law;
mod number;
mod piece;
mod read;
mod reading;
mod word;
mod worked;

pub use fault::{ScriptError, ScriptFault};
pub use journal::write_journal;
pub use law::{
    a_faulty_text_is_no_script, a_text_has_one_first_fault, a_text_is_one_script,
    every_text_is_a_script_or_faulty,
};
pub use read::read_script;
pub use worked::{
    data_are_read, input_behind_run_is_faulty, input_is_a_script, quotes_are_read,
    reasons_have_an_order,
};
