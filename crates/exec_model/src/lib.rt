//! The executive as it is defined: states, what a request does, what settles, which events are steps,
//! which journals are runs, and the report. Beside the definitions stands a plain executive that
//! computes them, over any processes.
#![tactic(auto)]

mod agreement_law;
mod change;
mod commit;
mod data;
mod draft;
mod effects;
mod event;
mod events;
mod expressions;
mod holding;
mod killing;
mod one_lane_law;
mod opening;
mod order;
mod order_law;
mod plain;
mod procs;
mod row;
mod rows;
mod script;
mod settling;
mod settling_law;
mod stamps_law;
mod state;
mod status;
mod telling;
mod times;
mod told;

pub use agreement_law::loads_that_agree_have_equal_runs;
pub use event::{Event, Journal};
pub use one_lane_law::one_lane_is_one_run;
pub use order_law::first_is_an_order;
pub use plain::Plain;
pub use procs::Procs;
pub use row::Row;
pub use script::{Datum, Script, ScriptLine};
pub use settling_law::settling_ends;
pub use stamps_law::ready_rows_have_stamps_of_their_own;
pub use state::State;
pub use status::{End, How, Status};
