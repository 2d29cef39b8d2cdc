//! Which steps the events are, and when they may come.

ghost use Rattle.std.specs.Prelude.{◌≡◌, ◌≤◌, ◌↔◌, ℕ, false, IfOk, IfSome, IfNone, OnOk, IsTrue};
ghost use Rattle.hal_values.specs.Loads.{IsUpdate};
ghost use Rattle.exec_model.specs.Drafts.{on, IsLooked};
ghost use Rattle.exec_model.specs.Events.{IsDrafted};
ghost use Rattle.exec_model.specs.Meanings.{meaning};
ghost use Rattle.exec_model.specs.Moments.{moment_of};
ghost use Rattle.exec_model.specs.Sound.{IsSound};
ghost use Rattle.exec_model.specs.Steps.{written, block_left, preempted, IsActed, IsAllowed};
ghost use Rattle.exec_model.specs.Rows.{is_ready, row_in};
ghost use Rattle.exec_model.specs.Runs.{IsOfProcess};

use crate::draft::Draft;
use crate::effects::act;
use crate::event::Event;
use crate::holding::{is_held, touch_of};
use crate::order::{first_ready, is_in_first};
use crate::procs::Procs;
use crate::row::Row;
use crate::rows::row_at;
use crate::settling::settle_rows;
use crate::state::State;
use crate::status::{How, Status};
use crate::told::Reply;
use hal_values::{Request, Value};
use std::alloc::{AllocError, Global};

/// Makes writes, in their order.
fn put_all<P: Procs>(draft: &mut Draft<P>, writes: &[(u16, Value)]) -> Result<(), AllocError>
    ensures { OnOk result (draft.new ≡ on (λ m. record m { store = written m.store writes.now }) draft.old) }
{
    for write in writes {
        draft.put(write.0, write.1.copy())?;
    }
    Ok(())
}

/// The process leaves its UPDATE block.
fn leave_block<P: Procs>(draft: &mut Draft<P>, process: u8, row: Row) -> Result<(), AllocError>
    ensures { OnOk result (draft.new ≡ on (block_left process row) draft.old) }
{
    if !row.doomed {
        draft.set_row(
            process,
            Row {
                inside: false,
                ..row
            },
        );
        return Ok(());
    }
    draft.set_row(
        process,
        Row {
            inside: false,
            status: Status::Ending(How::Terminated),
            ..row
        },
    );
    draft.tell(process, Reply::Killed)?;
    Ok(())
}

fn is_acted(request: &Request) -> bool
    ensures { IsTrue result ↔ IsActed request.now }
{
    !matches!(
        request,
        Request::Update(_) | Request::Look(_) | Request::Close(_)
    )
}

fn is_update(request: &Request) -> bool
    ensures { IsTrue result ↔ IsUpdate request.now }
{
    matches!(request, Request::Update(_))
}

/// The step in which a request of the process is answered.
fn drafted_act<P: Procs>(
    alloc: Global,
    procs: &mut P,
    state: &State,
    lanes: u8,
    process: u8,
) -> Result<Option<Draft<P>>, AllocError>
    requires { IsSound (meaning P.Of.Load (P.load procs.old)) (moment_of state.now (P.answers procs.old)) }
    ensures drafted { IfOk result (IsDrafted (meaning P.Of.Load (P.load procs.old)) lanes (moment_of state.now (P.answers procs.old)) (Event.Act process)) }
    ensures closes { IfOk result (λ made. IfSome made (λ draft. draft.closes ≡ None)) }
    ensures same { (P.load procs.new ≡ P.load procs.old) × (P.answers procs.new ≡ P.answers procs.old) }
{
    let rows = state.rows.as_slice();
    if !is_in_first(rows, process, lanes)? || row_at(rows, process).inside {
        return Ok(None);
    }
    let request = procs.ask(process)?;
    if !is_acted(&request) {
        return Ok(None);
    }
    let touch = touch_of(procs.tables(), &request);
    if is_held(procs, state, process, touch)? {
        return Ok(None);
    }
    let mut draft = Draft::of(alloc, state, procs)?;
    act(procs.tables(), state, &mut draft, process, request)?;
    settle_rows(procs.tables(), &mut draft)?;
    Ok(Some(draft))
}

/// The step in which the process's UPDATE block begins.
fn drafted_open<P: Procs>(
    alloc: Global,
    procs: &mut P,
    state: &State,
    lanes: u8,
    process: u8,
) -> Result<Option<Draft<P>>, AllocError>
    requires { IsSound (meaning P.Of.Load (P.load procs.old)) (moment_of state.now (P.answers procs.old)) }
    ensures drafted { IfOk result (IsDrafted (meaning P.Of.Load (P.load procs.old)) lanes (moment_of state.now (P.answers procs.old)) (Event.Open process)) }
    ensures closes { IfOk result (λ made. IfSome made (λ draft. draft.closes ≡ None)) }
    ensures same { (P.load procs.new ≡ P.load procs.old) × (P.answers procs.new ≡ P.answers procs.old) }
{
    let rows = state.rows.as_slice();
    let row = row_at(rows, process);
    if !is_in_first(rows, process, lanes)? || row.inside {
        return Ok(None);
    }
    let request = procs.ask(process)?;
    if !is_update(&request) {
        return Ok(None);
    }
    let touch = touch_of(procs.tables(), &request);
    if is_held(procs, state, process, touch)? {
        return Ok(None);
    }
    let mut draft = Draft::of(alloc, state, procs)?;
    draft.set_row(
        process,
        Row {
            inside: true,
            ..row
        },
    );
    settle_rows(procs.tables(), &mut draft)?;
    Ok(Some(draft))
}

/// The step in which the clock goes on.
fn drafted_tick<P: Procs>(
    alloc: Global,
    procs: &mut P,
    state: &State,
    lanes: u8,
    time: u64,
) -> Result<Option<Draft<P>>, AllocError>
    requires { IsSound (meaning P.Of.Load (P.load procs.old)) (moment_of state.now (P.answers procs.old)) }
    ensures drafted { IfOk result (IsDrafted (meaning P.Of.Load (P.load procs.old)) lanes (moment_of state.now (P.answers procs.old)) (Event.Tick time)) }
    ensures closes { IfOk result (λ made. IfSome made (λ draft. draft.closes ≡ None)) }
    ensures same { (P.load procs.new ≡ P.load procs.old) × (P.answers procs.new ≡ P.answers procs.old) }
{
    let _for_all_lanes = lanes;
    let mut draft = Draft::of(alloc, state, procs)?;
    draft.tick(time)?;
    settle_rows(procs.tables(), &mut draft)?;
    Ok(Some(draft))
}

/// Gives a process that is Ready the next stamp.
fn preempt<P: Procs>(draft: &mut Draft<P>, process: u8, row: Row) -> Result<(), AllocError>
    ensures { OnOk result (draft.new ≡ on (preempted process row) draft.old) }
{
    if row.is_ready() {
        draft.make_ready(process, row)?;
    }
    Ok(())
}

/// The step in which the process gives way.
fn drafted_preempt<P: Procs>(
    alloc: Global,
    procs: &mut P,
    state: &State,
    lanes: u8,
    process: u8,
) -> Result<Option<Draft<P>>, AllocError>
    requires { IsSound (meaning P.Of.Load (P.load procs.old)) (moment_of state.now (P.answers procs.old)) }
    ensures drafted { IfOk result (IsDrafted (meaning P.Of.Load (P.load procs.old)) lanes (moment_of state.now (P.answers procs.old)) (Event.Preempt process)) }
    ensures closes { IfOk result (λ made. IfSome made (λ draft. draft.closes ≡ None)) }
    ensures same { (P.load procs.new ≡ P.load procs.old) × (P.answers procs.new ≡ P.answers procs.old) }
{
    let _for_all_lanes = lanes;
    if usize::from(process) >= procs.tables().processes.as_slice().len() {
        return Ok(None);
    }
    let mut draft = Draft::of(alloc, state, procs)?;
    let row = draft.row(process);
    preempt(&mut draft, process, row)?;
    settle_rows(procs.tables(), &mut draft)?;
    Ok(Some(draft))
}

/// The step in which the process's UPDATE block is done, after so many turns.
fn drafted_block<P: Procs>(
    alloc: Global,
    procs: &mut P,
    state: &State,
    lanes: u8,
    process: u8,
    turns: u16,
) -> Result<Option<Draft<P>>, AllocError>
    requires { IsSound (meaning P.Of.Load (P.load procs.old)) (moment_of state.now (P.answers procs.old)) }
    ensures drafted { IfOk result (IsDrafted (meaning P.Of.Load (P.load procs.old)) lanes (moment_of state.now (P.answers procs.old)) (Event.Block process turns)) }
    ensures closes { IfOk result (λ made. IfSome made (λ draft. IsLooked (P.looks procs.new) state.now.store draft.closes)) }
    ensures same { (P.load procs.new ≡ P.load procs.old) × (P.answers procs.new ≡ P.answers procs.old) }
{
    let rows = state.rows.as_slice();
    if !is_in_first(rows, process, lanes)? || !row_at(rows, process).inside {
        return Ok(None);
    }
    let mut writes = Vec::new(alloc);
    if procs.block(process, state.store.as_slice(), &mut writes)? != turns {
        return Ok(None);
    }
    let mut draft = Draft::closing(alloc, state, procs, process, turns)?;
    put_all(&mut draft, writes.as_slice())?;
    let row = draft.row(process);
    leave_block(&mut draft, process, row)?;
    settle_rows(procs.tables(), &mut draft)?;
    Ok(Some(draft))
}

/// The step of an event, or None where it may not come.
pub(crate) fn drafted<P: Procs>(
    alloc: Global,
    procs: &mut P,
    state: &State,
    lanes: u8,
    event: Event,
) -> Result<Option<Draft<P>>, AllocError>
    requires { IsSound (meaning P.Of.Load (P.load procs.old)) (moment_of state.now (P.answers procs.old)) }
    ensures drafted { IfOk result (IsDrafted (meaning P.Of.Load (P.load procs.old)) lanes (moment_of state.now (P.answers procs.old)) event) }
    ensures looked { IfOk result (λ made. IfSome made (λ draft. IsLooked (P.looks procs.new) state.now.store draft.closes)) }
    ensures same { (P.load procs.new ≡ P.load procs.old) × (P.answers procs.new ≡ P.answers procs.old) }
{
    match event {
        Event::Act(process) => {
            let made = drafted_act(alloc, procs, state, lanes, process)?;
            Ok(made)
        }
        Event::Open(process) => {
            let made = drafted_open(alloc, procs, state, lanes, process)?;
            Ok(made)
        }
        Event::Block(process, turns) => {
            let made = drafted_block(alloc, procs, state, lanes, process, turns)?;
            Ok(made)
        }
        Event::Tick(time) => {
            let made = drafted_tick(alloc, procs, state, lanes, time)?;
            Ok(made)
        }
        Event::Preempt(process) => {
            let made = drafted_preempt(alloc, procs, state, lanes, process)?;
            Ok(made)
        }
    }
}

/// An event of the first process that is Ready, or None where none is.
pub(crate) fn first_event<P: Procs>(
    alloc: Global,
    procs: &mut P,
    state: &State,
    lanes: u8,
) -> Result<Option<Event>, AllocError>
    requires sound { IsSound (meaning P.Of.Load (P.load procs.old)) (moment_of state.now (P.answers procs.old)) }
    requires lanes { 1 ≤ lanes }
    ensures of_process { IfOk result (λ found. IfSome found IsOfProcess) }
    ensures found { IfOk result (λ found. IfSome found (IsAllowed (meaning P.Of.Load (P.load procs.old)) lanes (moment_of state.now (P.answers procs.old)))) }
    ensures none { IfOk result (λ found. IfNone found ((p : ℕ) → is_ready (row_in state.now.rows p) ≡ false)) }
    ensures same { (P.load procs.new ≡ P.load procs.old) × (P.answers procs.new ≡ P.answers procs.old) }
{
    let rows = state.rows.as_slice();
    let Some(process) = first_ready(rows)? else {
        return Ok(None);
    };
    if row_at(rows, process).inside {
        let mut writes = Vec::new(alloc);
        let turns = procs.block(process, state.store.as_slice(), &mut writes)?;
        return Ok(Some(Event::Block(process, turns)));
    }
    let request = procs.ask(process)?;
    if is_update(&request) {
        return Ok(Some(Event::Open(process)));
    }
    Ok(Some(Event::Act(process)))
}
