use crate::expressions::{event_value, is_true, set_event};
use crate::procs::Procs;
use crate::row::Row;
use crate::rows::{any_dependent, row_at, set_row};
use crate::state::State;
use crate::status::{End, How, Status};
use crate::told::{Reply, Told};
use hal_values::{Tables, Value};
use std::alloc::{AllocError, Global};
use std::marker::Model;
use std::snapshot::Snapshot;

/// What a step changes: the rows and events as they are to be, and what is to be added to the rest.
pub(crate) struct Parts {
    pub(crate) clock: u64,
    pub(crate) rows: Vec<Row>,
    pub(crate) events: Vec<bool>,
    pub(crate) stamp: u64,
    /// The process whose UPDATE block is done, and its turns.
    pub(crate) closes: Option<(u8, u16)>,
    pub(crate) told: Vec<Told>,
    pub(crate) ends: Vec<End>,
    pub(crate) line: Vec<u8>,
    pub(crate) writes: Vec<(u16, Value)>,
    pub(crate) taken: Vec<u8>,
}

impl Drop for Parts {
    fn drop(self) {
        let Parts {
            clock: _,
            rows: _rows,
            events: _events,
            stamp: _,
            closes: _,
            told: _told,
            ends: _ends,
            line: _line,
            writes: _writes,
            taken: _taken,
        } = self;
    }
}

impl Parts {
    ghost use Rattle.std.specs.Prelude.{◌≡◌};

    /// The rows and the events, when the rest is done with.
    pub(crate) fn into_rows(self) -> (Vec<Row>, Vec<bool>)
        ensures rows { result.0 ≡ self.rows }
        ensures events { result.1 ≡ self.events }
    {
        let Parts {
            clock: _,
            rows,
            events,
            stamp: _,
            closes: _,
            told: _told,
            ends: _ends,
            line: _line,
            writes: _writes,
            taken: _taken,
        } = self;
        (rows, events)
    }
}

/// A step in the making, over a state and processes that it leaves alone: the rows and events as they
/// are to be, and what is to be added to the rest. Where the step can't be made, it is thrown away. A
/// contract sees what the executive was and what it is to be.
pub(crate) struct Draft<P: Procs> {
    alloc: Global,
    state: Snapshot<State>,
    procs: Snapshot<P>,
    clock: u64,
    rows: Vec<Row>,
    events: Vec<bool>,
    stamp: u64,
    closes: Option<(u8, u16)>,
    told: Vec<Told>,
    ends: Vec<End>,
    line: Vec<u8>,
    writes: Vec<(u16, Value)>,
    taken: Vec<u8>,
}

// A draft is let go wherever a step can't be made. Written here, that is one call there.
impl<P: Procs> Drop for Draft<P> {
    fn drop(self) {
        let Draft {
            alloc: _,
            state: _,
            procs: _,
            clock: _,
            rows: _rows,
            events: _events,
            stamp: _,
            closes: _,
            told: _told,
            ends: _ends,
            line: _line,
            writes: _writes,
            taken: _taken,
        } = self;
    }
}

impl<P: Procs> Model for Draft<P> {
    ghost use Rattle.std.specs.Prelude.{◌++◌};
    ghost use Rattle.exec_model.specs.Drafts.{Drafted};

    ghost Value = { Drafted };

    ghost use Rattle.exec_model.specs.Drafts.{closed_first, told_all, data_taken};
    ghost use Rattle.exec_model.specs.Moments.{moment_of};
    ghost use Rattle.exec_model.specs.Steps.{written};

    ghost view = { λ d. record {
      base = moment_of d.state.value (P.answers d.procs.value);
      now = record {
        store = written d.state.value.store d.writes.items;
        clock = d.clock;
        rows = d.rows.items;
        answers = told_all (closed_first d.state.value.store d.closes (P.answers d.procs.value)) d.told.items;
        events = d.events.items;
        output = d.state.value.output ++ d.line.items;
        ends = d.state.value.ends ++ d.ends.items;
        input = data_taken d.state.value.input d.taken.items;
        stamp = d.stamp;
      };
      closes = d.closes;
    } };
}

#[tactic(auto, using(crate::proofs::Drafting::pushes))]
impl<P: Procs> Draft<P> {
    ghost use Rattle.std.specs.Prelude.{◌≡◌, OnOk, IfOk};
    ghost use Rattle.exec_model.specs.Drafts.{on, reply_answer, begun_of, unchanged, closing_of};
    ghost use Rattle.exec_model.specs.Moments.{moment_of, with_row, made_ready, answered, row_of, event_of, with_event, ended, stored, taken_from, printed, ticked};
    ghost use Rattle.exec_model.specs.Expressions.{truth};
    ghost use Rattle.exec_model.specs.Rows.{has_dependents};
    ghost use Rattle.exec_model.specs.Parts.{IsMadeOf};

    /// The step that does no more than answer the process whose UPDATE block is done, if there is one.
    fn over(
        alloc: Global,
        state: &State,
        procs: &P,
        closes: Option<(u8, u16)>,
    ) -> Result<Draft<P>, AllocError>
        ensures { IfOk result (λ draft. draft ≡ begun_of (moment_of state.now (P.answers procs.now)) closes) }
    {
        Ok(Draft {
            alloc,
            state: Snapshot::of(state),
            procs: Snapshot::of(procs),
            clock: state.clock,
            rows: Vec::from_slice(alloc, state.rows.as_slice())?,
            events: Vec::from_slice(alloc, state.events.as_slice())?,
            stamp: state.stamp,
            closes,
            told: Vec::new(alloc),
            ends: Vec::new(alloc),
            line: Vec::new(alloc),
            writes: Vec::new(alloc),
            taken: Vec::new(alloc),
        })
    }

    /// The step that changes nothing.
    pub(crate) fn of(alloc: Global, state: &State, procs: &P) -> Result<Draft<P>, AllocError>
        ensures { IfOk result (λ draft. draft ≡ unchanged (moment_of state.now (P.answers procs.now))) }
    {
        let draft = Draft::over(alloc, state, procs, None)?;
        Ok(draft)
    }

    /// The step that answers a process whose UPDATE block is done.
    pub(crate) fn closing(
        alloc: Global,
        state: &State,
        procs: &P,
        process: u8,
        turns: u16,
    ) -> Result<Draft<P>, AllocError>
        ensures { IfOk result (λ draft. draft ≡ closing_of (moment_of state.now (P.answers procs.now)) process turns) }
    {
        let draft = Draft::over(alloc, state, procs, Some((process, turns)))?;
        Ok(draft)
    }

    /// The allocator of what the step is to add.
    pub(crate) fn alloc(&self) -> Global {
        self.alloc
    }

    /// Milliseconds.
    pub(crate) fn clock(&self) -> u64
        ensures { result ≡ self.now.now.clock }
    {
        self.clock
    }

    pub(crate) fn rows(&self) -> &[Row]
        ensures { result.now ≡ self.now.now.rows }
    {
        self.rows.as_slice()
    }

    /// The row of a process.
    pub(crate) fn row(&self, process: u8) -> Row
        ensures { result ≡ row_of self.now.now process }
    {
        row_at(self.rows.as_slice(), process)
    }

    /// Answers the process.
    pub(crate) fn tell(&mut self, process: u8, reply: Reply) -> Result<(), AllocError>
        ensures { OnOk result (self.new ≡ on (answered process (reply_answer reply)) self.old) }
    {
        self.told.push(Told { process, reply })?;
        Ok(())
    }

    /// Gives the process this row.
    pub(crate) fn set_row(&mut self, process: u8, row: Row)
        ensures { self.new ≡ on (with_row process row) self.old }
    {
        set_row(self.rows.as_mut_slice(), process, row);
    }

    /// Makes the process Ready, with this row but for the stamp, which is the next. It gives up past 64
    /// bits.
    pub(crate) fn make_ready(&mut self, process: u8, row: Row) -> Result<(), AllocError>
        ensures { OnOk result (self.new ≡ on (made_ready process row) self.old) }
    {
        let Some(next) = self.stamp.checked_add(1) else {
            return Err(AllocError);
        };
        let ready = Row {
            status: Status::Ready,
            stamp: self.stamp,
            ..row
        };
        set_row(self.rows.as_mut_slice(), process, ready);
        self.stamp = next;
        Ok(())
    }

    /// Adds the end of a process.
    pub(crate) fn end(&mut self, process: u8, how: How, cycles: u64) -> Result<(), AllocError>
        ensures { OnOk result (self.new ≡ on (ended process how cycles) self.old) }
    {
        self.ends.push(End {
            process,
            clock: self.clock,
            how,
            cycles,
        })?;
        Ok(())
    }

    /// Has the shared cell hold the value.
    pub(crate) fn put(&mut self, cell: u16, value: Value) -> Result<(), AllocError>
        ensures { OnOk result (self.new ≡ on (stored cell value) self.old) }
    {
        self.writes.push((cell, value))?;
        Ok(())
    }

    /// Uses up the first datum that is left of the channel.
    pub(crate) fn take(&mut self, channel: u8) -> Result<(), AllocError>
        ensures { OnOk result (self.new ≡ on (taken_from channel) self.old) }
    {
        self.taken.push(channel)?;
        Ok(())
    }

    /// Adds bytes to the output.
    pub(crate) fn print(&mut self, bytes: &[u8]) -> Result<(), AllocError>
        ensures { OnOk result (self.new ≡ on (printed bytes.now) self.old) }
    {
        self.line.extend_from_slice(bytes)
    }

    /// Moves the clock on. It gives up past 64 bits.
    pub(crate) fn tick(&mut self, time: u64) -> Result<(), AllocError>
        ensures { OnOk result (self.new ≡ on (ticked time) self.old) }
    {
        let Some(clock) = self.clock.checked_add(time) else {
            return Err(AllocError);
        };
        self.clock = clock;
        Ok(())
    }

    /// The value of an event.
    pub(crate) fn event(&self, tables: &Tables, event: u16) -> bool
        ensures { result ≡ event_of tables.now self.now.now event }
    {
        event_value(tables, self.rows.as_slice(), self.events.as_slice(), event)
    }

    /// Gives a declared event this value.
    pub(crate) fn set_event(&mut self, tables: &Tables, event: u16, to: bool)
        ensures { self.new ≡ on (with_event tables.now event to) self.old }
    {
        set_event(tables, self.events.as_mut_slice(), event, to);
    }

    /// Whether the event expression is TRUE.
    pub(crate) fn is_true(&self, tables: &Tables, expression: u32) -> Result<bool, AllocError>
        ensures { IfOk result (λ value. value ≡ truth tables.now self.now.now expression) }
    {
        let value = is_true(
            self.alloc,
            tables,
            self.rows.as_slice(),
            self.events.as_slice(),
            expression,
        )?;
        Ok(value)
    }

    /// Whether a dependent of the process is active.
    pub(crate) fn has_dependents(&self, process: u8) -> bool
        ensures { result ≡ has_dependents self.now.now.rows process }
    {
        any_dependent(self.rows.as_slice(), process)
    }

    /// What the step is to change and to add.
    pub(crate) fn into_parts(self) -> Parts
        ensures { IsMadeOf self result }
    {
        let Draft {
            alloc: _,
            state: _,
            procs: _,
            clock,
            rows,
            events,
            stamp,
            closes,
            told,
            ends,
            line,
            writes,
            taken,
        } = self;
        Parts {
            clock,
            rows,
            events,
            stamp,
            closes,
            told,
            ends,
            line,
            writes,
            taken,
        }
    }
}
