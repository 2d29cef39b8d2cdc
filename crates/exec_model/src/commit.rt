//! How a step is made of what it changes.

ghost use Rattle.std.specs.Prelude.{◌≡◌, ◌++◌, [], ◌∷◌, OnOk, OnErr, length};
ghost use Rattle.hal_values.specs.Tables.{process_count};
ghost use Rattle.exec_model.specs.Drafts.{data_taken, IsLooked};
ghost use Rattle.exec_model.specs.Meanings.{meaning};
ghost use Rattle.exec_model.specs.Moments.{moment_of, datum_taken};
ghost use Rattle.exec_model.specs.Parts.{parts_moment};
ghost use Rattle.exec_model.specs.Sound.{IsSound};
ghost use Rattle.exec_model.specs.Steps.{written};

use crate::draft::{Draft, Parts};
use crate::procs::Procs;
use crate::script::Datum;
use crate::state::State;
use crate::status::End;
use crate::telling::{are_few, tell_all, tell_closed};
use hal_values::{Listing, Value};
use std::alloc::{AllocError, Global};

/// Adds lines and ends, or neither.
fn add_both(
    output: &mut Listing<u8>,
    line: &[u8],
    ends: &mut Listing<End>,
    added: &[End],
) -> Result<(), AllocError>
    ensures output { OnOk result (output.new ≡ output.old ++ line.now) }
    ensures ends { OnOk result (ends.new ≡ ends.old ++ added.now) }
    ensures same_output { OnErr result (output.new ≡ output.old) }
    ensures same_ends { OnErr result (ends.new ≡ ends.old) }
{
    let length = output.as_slice().len();
    output.extend(line)?;
    if ends.extend(added).is_err() {
        output.truncate(length);
        return Err(AllocError);
    }
    Ok(())
}

/// Makes a write, where there is such a cell.
fn put(store: &mut Listing<Value>, write: &(u16, Value))
    ensures { store.new ≡ written store.old (write.now ∷ []) }
{
    let cell = usize::from(write.0);
    if cell < store.as_slice().len() {
        store.set(cell, write.1.copy());
    }
}

fn put_all(store: &mut Listing<Value>, writes: &[(u16, Value)])
    ensures { store.new ≡ written store.old writes.now }
{
    for write in writes {
        put(store, write);
    }
}

/// Uses up the first datum that is left of a channel.
fn take(alloc: Global, input: &mut Listing<Listing<Datum>>, channel: u8)
    ensures { input.new ≡ datum_taken input.old channel }
{
    let place = usize::from(channel);
    if place < input.as_slice().len() {
        let mut data = input.replace(place, Listing::empty(alloc));
        data.remove_first();
        input.set(place, data);
    }
}

fn take_all(alloc: Global, input: &mut Listing<Listing<Datum>>, channels: &[u8])
    ensures { input.new ≡ data_taken input.old channels.now }
{
    for channel in channels {
        take(alloc, input, *channel);
    }
}

/// Makes the step that consists of these parts, or leaves all as it is.
pub(crate) fn commit<P: Procs>(
    alloc: Global,
    procs: &mut P,
    state: &mut State,
    parts: Parts,
) -> Result<(), AllocError>
    requires lists { length (P.answers procs.old) ≡ process_count (P.Of.tables (P.load procs.old)) }
    requires looked { IsLooked (P.looks procs.old) state.old.store parts.closes }
    requires sound { IsSound (meaning P.Of.Load (P.load procs.old)) (parts_moment (moment_of state.old (P.answers procs.old)) parts) }
    ensures made { OnOk result (moment_of state.new (P.answers procs.new) ≡ parts_moment (moment_of state.old (P.answers procs.old)) parts) }
    ensures same_state { OnErr result (state.new ≡ state.old) }
    ensures same_answers { OnErr result (P.answers procs.new ≡ P.answers procs.old) }
    ensures load { P.load procs.new ≡ P.load procs.old }
{
    if !are_few(parts.told.as_slice()) {
        return Err(AllocError);
    }
    procs.reserve()?;
    add_both(
        &mut state.output,
        parts.line.as_slice(),
        &mut state.ends,
        parts.ends.as_slice(),
    )?;
    tell_closed(procs, state.store.as_slice(), parts.closes);
    tell_all(procs, parts.told.as_slice());
    put_all(&mut state.store, parts.writes.as_slice());
    take_all(alloc, &mut state.input, parts.taken.as_slice());
    state.clock = parts.clock;
    state.stamp = parts.stamp;
    let (rows, events) = parts.into_rows();
    state.rows = Listing::new(rows);
    state.events = Listing::new(events);
    Ok(())
}

/// Makes a step, or leaves all as it is.
pub(crate) fn take_step<P: Procs>(
    alloc: Global,
    procs: &mut P,
    state: &mut State,
    draft: Draft<P>,
) -> Result<(), AllocError>
    requires lists { length (P.answers procs.old) ≡ process_count (P.Of.tables (P.load procs.old)) }
    requires base { draft.base ≡ moment_of state.old (P.answers procs.old) }
    requires looked { IsLooked (P.looks procs.old) state.old.store draft.closes }
    requires sound { IsSound (meaning P.Of.Load (P.load procs.old)) draft.now }
    ensures made { OnOk result (moment_of state.new (P.answers procs.new) ≡ draft.now) }
    ensures same_state { OnErr result (state.new ≡ state.old) }
    ensures same_answers { OnErr result (P.answers procs.new ≡ P.answers procs.old) }
    ensures load { P.load procs.new ≡ P.load procs.old }
{
    let parts = draft.into_parts();
    commit(alloc, procs, state, parts)?;
    Ok(())
}
