use crate::row::Row;
use crate::script::Datum;
use crate::status::End;
use hal_values::{Listing, Value};

/// The executive at a moment, but for the answers, which the processes have.
pub struct State {
    /// What the shared cells hold.
    pub store: Listing<Value>,
    /// The clock, in milliseconds.
    pub clock: u64,
    /// One row for each process.
    pub rows: Listing<Row>,
    /// The values of the declared events.
    pub events: Listing<bool>,
    /// The channel lines so far.
    pub output: Listing<u8>,
    /// The ends of processes so far.
    pub ends: Listing<End>,
    /// What is left to be read, for each channel.
    pub input: Listing<Listing<Datum>>,
    /// The stamp of the next process that becomes Ready.
    pub stamp: u64,
}

impl Drop for State {
    fn drop(self) {
        let State {
            store: _store,
            clock: _,
            rows: _rows,
            events: _events,
            output: _output,
            ends: _ends,
            input: _input,
            stamp: _,
        } = self;
    }
}
