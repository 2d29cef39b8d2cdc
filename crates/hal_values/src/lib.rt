//! What flows between a process and the executive: values, requests and answers; and what a load
//! is, of which the executive's definitions speak. `specs/` says when values, tables, requests and
//! answers are right, and when two loads agree.
#![tactic(auto)]

mod answer;
mod environment;
mod line;
mod listing;
mod load;
mod plan;
mod request;
mod smallest_load;
mod tables;
mod text;
mod value;

pub use answer::Answer;
pub use environment::{Act, Action, Entry, ErrNo, Selector, Side};
pub use line::Line;
pub use listing::Listing;
pub use load::{
    Load, a_load_keeps_its_laws, an_answer_killed_fits, loads_that_agree_take_the_same_answers,
};
pub use plan::{Cycle, Guard, Pause, Plan, When};
pub use request::{Request, Spot};
pub use smallest_load::{SmallestLoad, the_smallest_load_takes_its_answers};
pub use tables::{Cell, EventStart, Item, ReportBase, ReportName, Tables};
pub use text::Text;
pub use value::{Kind, Value};
