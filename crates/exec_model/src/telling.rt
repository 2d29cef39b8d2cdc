//! How processes are told their answers.

ghost use Rattle.std.specs.Prelude.{◌≡◌, ◌+◌, ◌<◌, ◌↔◌, IsTrue, count_by, slice_index, length};
ghost use Rattle.hal_values.specs.Loads.{FitsNext};
ghost use Rattle.hal_values.specs.Requests.{HasProcess};
ghost use Rattle.hal_values.specs.Tables.{process_count};
ghost use Rattle.exec_model.specs.Drafts.{reply_answer, told_all, closed_first, IsLooked};
ghost use Rattle.exec_model.specs.Meanings.{meaning};
ghost use Rattle.exec_model.specs.Moments.{answers_in, pushed_answer};
ghost use Rattle.exec_model.specs.Processes.{SameRoomsBut, HasRooms};
ghost use Rattle.exec_model.specs.Telling.{FitOne, FitTold, FitClosed, HasRoomFor, LowersByOne, LowersFor, TellsFew, is_for};

use crate::procs::Procs;
use crate::told::{Reply, Told};
use hal_values::{Answer, Value};

/// Tells a process that exists an answer.
fn tell_reply<P: Procs>(procs: &mut P, process: u8, reply: &Reply)
    requires exists { HasProcess (P.Of.tables (P.load procs.old)) process }
    requires room { 0 < slice_index (P.rooms procs.old) process }
    requires fits { FitsNext (meaning P.Of.Load (P.load procs.old)) process (answers_in (P.answers procs.old) process) (reply_answer reply.now) }
    ensures told { P.answers procs.new ≡ pushed_answer (P.answers procs.old) process (reply_answer reply.now) }
    ensures load { P.load procs.new ≡ P.load procs.old }
    ensures room { slice_index (P.rooms procs.new) process + 1 ≡ slice_index (P.rooms procs.old) process }
    ensures other_rooms { SameRoomsBut process (P.rooms procs.old) (P.rooms procs.new) }
{
    match reply {
        Reply::Begun => procs.tell(process, Answer::Begun),
        Reply::Value(value) => procs.tell(process, Answer::Value(value.copy())),
        Reply::Done => procs.tell(process, Answer::Done),
        Reply::Wrong(error) => procs.tell(process, Answer::Wrong(*error)),
        Reply::Killed => procs.tell(process, Answer::Killed),
    }
}

/// Tells the process whose UPDATE block is done, if there is one, that it is. `store` is what the block
/// was done over.
pub(crate) fn tell_closed<P: Procs>(procs: &mut P, store: &[Value], closes: Option<(u8, u16)>)
    requires looked { IsLooked (P.looks procs.old) store.now closes }
    requires fits { FitClosed (meaning P.Of.Load (P.load procs.old)) store.now (P.answers procs.old) closes }
    requires room { HasRooms (P.Of.tables (P.load procs.old)) (P.rooms procs.old) }
    requires lists { length (P.answers procs.old) ≡ process_count (P.Of.tables (P.load procs.old)) }
    ensures told { P.answers procs.new ≡ closed_first store.now closes (P.answers procs.old) }
    ensures load { P.load procs.new ≡ P.load procs.old }
    ensures room { LowersByOne (P.rooms procs.old) (P.rooms procs.new) }
{
    let _over = store;
    let Some((process, _turns)) = closes else {
        return;
    };
    if usize::from(process) < procs.tables().processes.as_slice().len() {
        procs.tell(process, Answer::Closed);
    }
}

/// Tells a process an answer; there is nothing to be told to a process that doesn't exist.
fn tell_one<P: Procs>(procs: &mut P, given: &Told)
    requires lists { length (P.answers procs.old) ≡ process_count (P.Of.tables (P.load procs.old)) }
    requires fits { FitOne (meaning P.Of.Load (P.load procs.old)) (P.answers procs.old) given.now }
    requires room { HasProcess (P.Of.tables (P.load procs.old)) given.now.process → 0 < slice_index (P.rooms procs.old) given.now.process }
    ensures told { P.answers procs.new ≡ pushed_answer (P.answers procs.old) given.now.process (reply_answer given.now.reply) }
    ensures load { P.load procs.new ≡ P.load procs.old }
    ensures rooms { LowersFor given.now (P.rooms procs.old) (P.rooms procs.new) }
{
    if usize::from(given.process) < procs.tables().processes.as_slice().len() {
        tell_reply(procs, given.process, &given.reply);
    }
}

/// Tells the processes their answers, one after another.
pub(crate) fn tell_all<P: Procs>(procs: &mut P, told: &[Told])
    requires lists { length (P.answers procs.old) ≡ process_count (P.Of.tables (P.load procs.old)) }
    requires fit { FitTold (meaning P.Of.Load (P.load procs.old)) (P.answers procs.old) told.now }
    requires room { HasRoomFor (P.Of.tables (P.load procs.old)) (P.rooms procs.old) told.now }
    ensures told { P.answers procs.new ≡ told_all (P.answers procs.old) told.now }
    ensures load { P.load procs.new ≡ P.load procs.old }
{
    for given in told {
        tell_one(procs, given);
    }
}

/// How many answers a process may be told in one step, besides that to its UPDATE block.
const MOST_TOLD: usize = 3;

fn count_for(told: &[Told], process: u8) -> usize
    ensures { result ≡ count_by (is_for process) told.now }
{
    told.iter().filter(|given| given.process == process).count()
}

/// Whether no process is told more answers than it is sure to have room for.
pub(crate) fn are_few(told: &[Told]) -> bool
    ensures { IsTrue result → TellsFew 3 told.now }
{
    for given in told {
        if count_for(told, given.process) > MOST_TOLD {
            return false;
        }
    }
    true
}
