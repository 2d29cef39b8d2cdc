//! Scripted loads, whose processes ask what a list says, and the rows of the executive as laws over
//! them: computed from the definitions alone.
#![tactic(auto)]

mod checking;
mod copies;
mod desk;
mod kept;
mod place;
mod rows;
mod scripted;
mod scripted_procs;

pub use rows::{
    a_block_is_done_before_the_end, a_cancel_waits_for_the_cycle, a_failed_schedule_can_be_ignored,
    a_failed_schedule_stops_its_process, a_guard_ends_the_cycles, a_preempted_process_gives_way,
    a_process_ends_with_its_dependents, a_signal_lasts_for_a_moment,
    cycles_whose_time_has_come_all_run, five_cycles_whose_time_has_come_all_run,
};
pub use scripted::{Ask, Scripted};
pub use scripted_procs::ScriptedProcs;
