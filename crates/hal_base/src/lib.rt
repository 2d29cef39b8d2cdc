//! The ground of `hal`: where a phrase stands, which rule it breaks, how large things may be, how a
//! text falls into lines, and what the outside gives and takes.
#![tactic(auto)]

mod disk_shelf;
mod files;
mod limits;
mod line;
mod mem_shelf;
mod mem_sink;
mod out_sink;
mod refusal;
pub mod rules;
mod shelf;
mod sink;
mod sure_shelf;
mod sure_sink;

pub use disk_shelf::DiskShelf;
pub use limits::{
    BIT_LIMIT, CELL_LIMIT, CHANNEL_COUNT, CHARACTER_LIMIT, ERROR_LIMIT, EVENT_LIMIT, IMAGE_LIMIT,
    LANE_LIMIT, LINE_LIMIT, NAME_LIMIT, NESTING_LIMIT, PRIORITY_LIMIT, PROCESS_LIMIT, RUN_LIMIT,
    RUN_SUM_LIMIT, SCRIPT_LINE_LIMIT, SINGLE_LEAST, SINGLE_MOST, SIZE_LIMIT, TEXT_LIMIT,
    TICK_LIMIT, TICK_SUM_LIMIT, TOKEN_LIMIT, TOKEN_SUM_LIMIT, TURN_LIMIT, UNIT_LIMIT,
};
pub use line::first_line;
pub use mem_shelf::MemShelf;
pub use mem_sink::MemSink;
pub use out_sink::OutSink;
pub use refusal::{Fault, Place, Refusal, Rule};
pub use shelf::{Found, Shelf, ShelfFault};
pub use sink::{Sink, SinkFault};
pub use sure_shelf::SureShelf;
pub use sure_sink::SureSink;
