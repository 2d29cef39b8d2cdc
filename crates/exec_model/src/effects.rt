//! What requests do, and what they are answered.

ghost use Rattle.std.specs.Prelude.{◌≡◌, ◌/◌, pos, IfOk, OnOk, slice_index_or, []};
ghost use Rattle.hal_values.specs.Answers.{Told, Done};
ghost use Rattle.hal_values.specs.declared.value.Value.TheVariants as value;
ghost use Rattle.exec_model.specs.Drafts.{on, IsOver, reply_answer};
ghost use Rattle.exec_model.specs.Effects.{bit_value, value_at, start_status, schedule_done, cancel_done, terminate_done, wait_status, wait_begun, signal_done, priority_done, channel_line, next_status, finished, finish_done, begin_done, stop_done, input_done, datum_answer, effect};
ghost use Rattle.exec_model.specs.Moments.{row_of, answered, stored, printed, with_event};

use crate::data::datum_of;
use crate::draft::Draft;
use crate::killing::{is_in_family, kill_family};
use crate::procs::Procs;
use crate::row::Row;
use crate::settling::settle_rows;
use crate::state::State;
use crate::status::{How, Status};
use crate::times::{time_later, time_not_before};
use crate::told::Reply;
use hal_values::{Cycle, ErrNo, Kind, Line, Pause, Plan, Request, Spot, Tables, Value, When};
use std::alloc::{AllocError, Global};

const ALREADY_ACTIVE: ErrNo = ErrNo {
    group: 2,
    number: 1,
};

const INACTIVE: ErrNo = ErrNo {
    group: 2,
    number: 2,
};

const NO_DESCENDANT: ErrNo = ErrNo {
    group: 2,
    number: 3,
};

const NO_DATUM: ErrNo = ErrNo {
    group: 3,
    number: 1,
};

const OTHER_DATUM: ErrNo = ErrNo {
    group: 3,
    number: 2,
};

/// One bit.
fn bit(holds: bool) -> Value
    ensures { result ≡ bit_value holds }
{
    Value::Bits {
        len: 1,
        word: if holds { 1 } else { 0 },
    }
}

/// What is read.
fn read_value<P: Procs>(tables: &Tables, state: &State, draft: &Draft<P>, spot: Spot) -> Value
    requires { IsOver state.now draft.now }
    ensures { result ≡ value_at tables.now draft.now.now spot }
{
    match spot {
        Spot::Cell(cell) => match state.store.as_slice().get(usize::from(cell)) {
            Some(value) => value.copy(),
            None => Value::Int(0),
        },
        Spot::Event(event) => bit(draft.event(tables, event)),
    }
}

/// The status with which a plan begins; it gives up past 64 bits.
fn status_of_start(now: u64, when: When) -> Result<Status, AllocError>
    ensures { IfOk result (λ status. status ≡ start_status now when) }
{
    match when {
        When::Now => Ok(Status::Start(now)),
        When::At(time) => Ok(Status::Start(time_not_before(now, time))),
        When::After(time) => match time_later(now, time) {
            Some(start) => Ok(Status::Start(start)),
            None => Err(AllocError),
        },
        When::On(expression) => Ok(Status::StartOn(expression)),
    }
}

/// A cycle begins.
fn begin<P: Procs>(draft: &mut Draft<P>, process: u8, row: Row) -> Result<(), AllocError>
    ensures { OnOk result (draft.new ≡ on (begin_done process row) draft.old) }
{
    draft.set_row(
        process,
        Row {
            begun: true,
            started: true,
            ..row
        },
    );
    draft.tell(process, Reply::Begun)?;
    Ok(())
}

/// Schedules a process.
fn schedule<P: Procs>(draft: &mut Draft<P>, process: u8, plan: Plan) -> Result<(), AllocError>
    ensures { OnOk result (draft.new ≡ on (schedule_done process plan (row_of draft.old.now plan.process)) draft.old) }
{
    let row = draft.row(plan.process);
    if row.is_active() {
        draft.tell(process, Reply::Wrong(ALREADY_ACTIVE))?;
        return Ok(());
    }
    let status = status_of_start(draft.clock(), plan.when)?;
    let father = if plan.dependent { Some(process) } else { None };
    draft.set_row(
        plan.process,
        Row {
            status,
            priority: plan.priority,
            father,
            cycle: plan.cycle,
            guard: plan.guard,
            begun: false,
            started: false,
            cancelled: false,
            doomed: false,
            inside: false,
            cycles: 0,
            ..row
        },
    );
    draft.tell(process, Reply::Done)?;
    Ok(())
}

/// Asks for a cancel of a process.
fn cancel<P: Procs>(draft: &mut Draft<P>, process: u8, other: u8) -> Result<(), AllocError>
    ensures { OnOk result (draft.new ≡ on (cancel_done process other (row_of draft.old.now other)) draft.old) }
{
    let row = draft.row(other);
    if !row.is_active() {
        draft.tell(process, Reply::Wrong(INACTIVE))?;
        return Ok(());
    }
    draft.set_row(
        other,
        Row {
            cancelled: true,
            ..row
        },
    );
    draft.tell(process, Reply::Done)?;
    Ok(())
}

/// Ends a process and its descendants.
fn terminate<P: Procs>(draft: &mut Draft<P>, process: u8, other: u8) -> Result<(), AllocError>
    ensures { OnOk result (draft.new ≡ on (terminate_done process other (row_of draft.old.now other)) draft.old) }
{
    if !draft.row(other).is_active() {
        draft.tell(process, Reply::Wrong(INACTIVE))?;
        return Ok(());
    }
    if !is_in_family(draft.rows(), process, other) {
        draft.tell(process, Reply::Wrong(NO_DESCENDANT))?;
        return Ok(());
    }
    let is_killed_too = is_in_family(draft.rows(), other, process);
    kill_family(draft.alloc(), draft, other)?;
    if !is_killed_too {
        draft.tell(process, Reply::Done)?;
    }
    Ok(())
}

/// The status in which a process waits; None where what it waits for is true now. It gives up past 64
/// bits.
fn status_of_wait<P: Procs>(
    tables: &Tables,
    draft: &Draft<P>,
    process: u8,
    pause: Pause,
) -> Result<Option<Status>, AllocError>
    ensures { IfOk result (λ status. status ≡ wait_status tables.now draft.now.now process pause) }
{
    let now = draft.clock();
    match pause {
        Pause::For(time) => match time_later(now, time) {
            Some(until) => Ok((until > now).then_some(Status::Time(until))),
            None => Err(AllocError),
        },
        Pause::Till(time) => {
            let until = time_not_before(now, time);
            Ok((until > now).then_some(Status::Time(until)))
        }
        Pause::Event(expression) => {
            let holds = draft.is_true(tables, expression)?;
            Ok((!holds).then_some(Status::Event(expression)))
        }
        Pause::Dependents => Ok(draft.has_dependents(process).then_some(Status::Dependents)),
    }
}

/// Begins a wait.
fn wait<P: Procs>(
    tables: &Tables,
    draft: &mut Draft<P>,
    process: u8,
    row: Row,
    pause: Pause,
) -> Result<(), AllocError>
    ensures { OnOk result (draft.new ≡ on (wait_begun process row (wait_status tables.now draft.old.now process pause)) draft.old) }
{
    match status_of_wait(tables, draft, process, pause)? {
        None => {
            draft.tell(process, Reply::Done)?;
            Ok(())
        }
        Some(status) => {
            draft.set_row(process, Row { status, ..row });
            Ok(())
        }
    }
}

/// Has the event TRUE while the rows settle.
fn signal<P: Procs>(
    tables: &Tables,
    draft: &mut Draft<P>,
    process: u8,
    event: u16,
) -> Result<(), AllocError>
    ensures { OnOk result (draft.new ≡ on (signal_done tables.now process event) draft.old) }
{
    let before = draft.event(tables, event);
    draft.set_event(tables, event, true);
    settle_rows(tables, draft)?;
    draft.set_event(tables, event, before);
    draft.tell(process, Reply::Done)?;
    Ok(())
}

/// Gives a process a priority.
fn prioritize<P: Procs>(
    draft: &mut Draft<P>,
    process: u8,
    other: u8,
    priority: u8,
) -> Result<(), AllocError>
    ensures { OnOk result (draft.new ≡ on (priority_done process other priority (row_of draft.old.now other)) draft.old) }
{
    let row = draft.row(other);
    if !row.is_active() {
        draft.tell(process, Reply::Wrong(INACTIVE))?;
        return Ok(());
    }
    draft.set_row(other, Row { priority, ..row });
    draft.tell(process, Reply::Done)?;
    Ok(())
}

/// `CHANNEL:`, the items of a WRITE, and a newline byte.
fn line_of_channel(alloc: Global, channel: u8, line: &Line) -> Result<Vec<u8>, AllocError>
    ensures { IfOk result (λ bytes. bytes.items ≡ channel_line channel line.now) }
{
    let mut bytes = format!(in alloc; "{channel}:")?.into_bytes();
    bytes.extend_from_slice(line.bytes())?;
    bytes.push(b'\n')?;
    Ok(bytes)
}

/// How a process goes on whose cycle is done; it gives up past 64 bits.
fn status_of_next(now: u64, row: Row) -> Result<Status, AllocError>
    ensures { IfOk result (λ status. status ≡ next_status now row row.cycle) }
{
    let next = match row.cycle {
        Cycle::Once => return Ok(Status::Ending(How::Closed)),
        Cycle::Again => Some(now),
        Cycle::Every(time) => row.start.checked_add(time),
        Cycle::After(time) => now.checked_add(time),
    };
    match next {
        Some(start) => Ok(Status::Gap(start)),
        None => Err(AllocError),
    }
}

/// The row of a process whose cycle is done; it gives up past 64 bits.
fn finished_row(now: u64, row: Row) -> Result<Row, AllocError>
    ensures { IfOk result (λ done. done ≡ finished now row) }
{
    let status = if row.cancelled {
        Status::Ending(How::Cancelled)
    } else {
        status_of_next(now, row)?
    };
    let Some(cycles) = row.cycles.checked_add(1) else {
        return Err(AllocError);
    };
    Ok(Row {
        cycles,
        begun: false,
        status,
        ..row
    })
}

/// A cycle is done.
fn finish<P: Procs>(draft: &mut Draft<P>, process: u8, row: Row) -> Result<(), AllocError>
    ensures { OnOk result (draft.new ≡ on (finish_done process row) draft.old) }
{
    let done = finished_row(draft.clock(), row)?;
    draft.set_row(process, done);
    draft.tell(process, Reply::Done)?;
    Ok(())
}

/// Ends a process with an error, and its descendants.
fn stop<P: Procs>(draft: &mut Draft<P>, process: u8, error: ErrNo) -> Result<(), AllocError>
    ensures { OnOk result (draft.new ≡ on (stop_done process error) draft.old) }
{
    kill_family(draft.alloc(), draft, process)?;
    let row = draft.row(process);
    draft.set_row(
        process,
        Row {
            status: Status::Ending(How::Error(error)),
            ..row
        },
    );
    Ok(())
}

/// Takes the next datum that is left of the channel.
fn input<P: Procs>(
    state: &State,
    draft: &mut Draft<P>,
    process: u8,
    channel: u8,
    kind: Kind,
) -> Result<(), AllocError>
    requires { IsOver state.now draft.old }
    ensures { OnOk result (draft.new ≡ on (input_done process channel kind (slice_index_or draft.old.now.input channel [])) draft.old) }
{
    let Some(data) = state.input.as_slice().get(usize::from(channel)) else {
        draft.tell(process, Reply::Wrong(NO_DATUM))?;
        return Ok(());
    };
    let Some(datum) = data.as_slice().first() else {
        draft.tell(process, Reply::Wrong(NO_DATUM))?;
        return Ok(());
    };
    let reply = reply_to_datum(datum_of(kind, datum.as_slice()));
    draft.take(channel)?;
    draft.tell(process, reply)?;
    Ok(())
}

fn reply_to_datum(value: Option<Value>) -> Reply
    ensures { reply_answer result ≡ datum_answer value }
{
    match value {
        Some(value) => Reply::Value(value),
        None => Reply::Wrong(OTHER_DATUM),
    }
}

/// The clock in seconds, rounded down.
fn seconds(clock: u64) -> Result<i32, AllocError>
    ensures { IfOk result (λ time. time ≡ pos (clock / 1000)) }
{
    match i32::try_from(clock / 1000) {
        Ok(time) => Ok(time),
        Err(_) => Err(AllocError),
    }
}

/// Tells the process what it reads.
fn read<P: Procs>(
    tables: &Tables,
    state: &State,
    draft: &mut Draft<P>,
    process: u8,
    spot: Spot,
) -> Result<(), AllocError>
    requires { IsOver state.now draft.old }
    ensures { OnOk result (draft.new ≡ on (λ m. answered process (Told (value_at tables.now m spot)) m) draft.old) }
{
    let value = read_value(tables, state, draft, spot);
    draft.tell(process, Reply::Value(value))?;
    Ok(())
}

/// Has a shared cell hold a value.
fn write<P: Procs>(
    draft: &mut Draft<P>,
    process: u8,
    cell: u16,
    value: Value,
) -> Result<(), AllocError>
    ensures { OnOk result (draft.new ≡ on (λ m. answered process Done (stored cell value m)) draft.old) }
{
    draft.put(cell, value)?;
    draft.tell(process, Reply::Done)?;
    Ok(())
}

/// Gives a declared event a value.
fn change_event<P: Procs>(
    tables: &Tables,
    draft: &mut Draft<P>,
    process: u8,
    event: u16,
    to: bool,
) -> Result<(), AllocError>
    ensures { OnOk result (draft.new ≡ on (λ m. answered process Done (with_event tables.now event to m)) draft.old) }
{
    draft.set_event(tables, event, to);
    draft.tell(process, Reply::Done)?;
    Ok(())
}

/// Adds a line of a channel to the output.
fn print<P: Procs>(
    draft: &mut Draft<P>,
    process: u8,
    channel: u8,
    line: &Line,
) -> Result<(), AllocError>
    ensures { OnOk result (draft.new ≡ on (λ m. answered process Done (printed (channel_line channel line.now) m)) draft.old) }
{
    let bytes = line_of_channel(draft.alloc(), channel, line)?;
    draft.print(bytes.as_slice())?;
    draft.tell(process, Reply::Done)?;
    Ok(())
}

/// Tells the process the clock.
fn tell_time<P: Procs>(draft: &mut Draft<P>, process: u8) -> Result<(), AllocError>
    ensures { OnOk result (draft.new ≡ on (λ m. answered process (Told (value.Int (pos (m.clock / 1000)))) m) draft.old) }
{
    let time = seconds(draft.clock())?;
    draft.tell(process, Reply::Value(Value::Int(time)))?;
    Ok(())
}

/// Does what a request asks for that an event Act answers.
pub(crate) fn act<P: Procs>(
    tables: &Tables,
    state: &State,
    draft: &mut Draft<P>,
    process: u8,
    request: Request,
) -> Result<(), AllocError>
    requires { IsOver state.now draft.old }
    ensures { OnOk result (draft.new ≡ on (effect tables.now process (row_of draft.old.now process) request) draft.old) }
{
    let row = draft.row(process);
    match request {
        Request::Begin => begin(draft, process, row),
        Request::Read(spot) => read(tables, state, draft, process, spot),
        Request::Write(cell, value) => write(draft, process, cell, value),
        Request::Pass => draft.tell(process, Reply::Done),
        Request::Schedule(plan) => schedule(draft, process, plan),
        Request::Cancel(other) => cancel(draft, process, other),
        Request::Terminate(other) => terminate(draft, process, other),
        Request::Wait(pause) => wait(tables, draft, process, row, pause),
        Request::Signal(event) => signal(tables, draft, process, event),
        Request::Set(event) => change_event(tables, draft, process, event, true),
        Request::Reset(event) => change_event(tables, draft, process, event, false),
        Request::Priority(other, priority) => prioritize(draft, process, other, priority),
        Request::Print(channel, line) => print(draft, process, channel, &line),
        Request::Input(channel, kind) => input(state, draft, process, channel, kind),
        Request::Now => tell_time(draft, process),
        Request::Stop(error) => stop(draft, process, error),
        Request::Finish => finish(draft, process, row),
        Request::Update(_) | Request::Look(_) | Request::Close(_) => Ok(()),
    }
}
