//! Processes of an image as the machine runs them, from one request to the next. `specs/` says which premises its instructions have.
#![tactic(auto)]

mod acting;
mod answering;
mod bare_loops;
mod calling;
mod cases;
mod choosing;
mod clearing;
mod copying;
mod loading;
mod machines;
mod moving;
mod naming;
mod prepared;
mod quick;
mod ready;
mod reply;
mod requests;
mod rooms;
mod runner;
mod turning;

pub use cases::Cases;
pub use loading::{Loaded, cells_of};
pub use machines::{values_of, writes_of};
pub use prepared::Prepared;
pub use quick::Quick;
pub use ready::Ready;
pub use reply::Reply;
pub use requests::request_of;
pub use runner::Runner;
