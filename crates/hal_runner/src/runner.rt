//! A process of an image, from one request to the next.

ghost use Rattle.std.specs.Prelude.{◌≡◌, ◌<◌, ◌-◌, ◌^◌, [], ◌∷◌, ◌++◌, List, slice_get, map, IfOk, OnOk};
ghost use Rattle.hal_values.specs.Answers.{Answered};
ghost use Rattle.hal_states.specs.Spots.{held_in};
ghost use Rattle.hal_code.specs.declared.image.ImageParts.{ImageParts};
ghost use Rattle.hal_code.specs.Courses.{settled, course};
ghost use Rattle.hal_code.specs.Machine.{after_answer};
ghost use Rattle.hal_machine.specs.Blocks.{HasAsMuch};
ghost use Rattle.hal_machine.specs.Seen.{core_seen};
ghost use Rattle.hal_runner.specs.Replies.{reply_seen};
ghost use Rattle.hal_runner.specs.Prepared.{prepared_seen};
ghost use Rattle.hal_runner.specs.Cases.{AreReady};
ghost use Rattle.hal_runner.specs.Runners.{asked_seen};
ghost use Rattle.hal_runner.specs.Ways.{IsAmple, AnswerFits, ShapesFit, WayFits};

use crate::answering::answered;
use crate::copying::held_in;
use crate::machines::{machine_of, places_of};
use crate::moving::settle;
use crate::prepared::Prepared;
use crate::reply::Reply;
use crate::rooms::blocks_for;
use hal_machine::{Machine, Operands, Rest, Wait};
use hal_values::{ErrNo, Request, Value};
use std::alloc::{AllocError, Global};

/// The last error of a process before any.
const NO_ERROR: ErrNo = ErrNo {
    group: 0,
    number: 0,
};

/// A process that waits for an answer.
#[derive(Drop)]
pub struct Runner {
    machine: Machine,
}

impl Runner {
    /// A process before any answer. All the room for the blocks that it enters and for their error entries is taken here.
    pub fn start(setting: &Prepared<'_>) -> Result<Runner, AllocError>
        requires { setting.now.plain.begin < 2 ^ 64 - 1 }
        ensures room { IfOk result (λ runner. IsAmple setting.now.plain.image.now runner.machine.blocks.room) }
        ensures does { IfOk result (λ runner. asked_seen setting.now.plain.image.now runner ≡ course (prepared_seen setting.now) []) }
    {
        let places = places_of(setting.plain.alloc, setting.plain.firsts)?;
        let machine = Machine {
            at: setting.plain.begin + 1,
            operands: Operands::new(setting.plain.alloc),
            spare: Operands::new(setting.plain.alloc),
            line: Vec::new(setting.plain.alloc),
            blocks: blocks_for(setting.plain.alloc, setting.plain.image)?,
            places,
            last: NO_ERROR,
            groups: None,
            store: Vec::new(setting.plain.alloc),
            writes: Vec::new(setting.plain.alloc),
            turns: 0,
            request: Request::Begin,
            wait: Wait::Then(Rest::Nothing),
        };
        Ok(Runner { machine })
    }

    /// The same process once more.
    pub fn copy(&self, alloc: Global) -> Result<Runner, AllocError>
        ensures same { IfOk result (λ copy. (image : ImageParts) → asked_seen image copy ≡ asked_seen image self.now) }
        ensures room { IfOk result (λ copy. HasAsMuch self.now.machine.blocks.room copy.machine.blocks.room) }
    {
        Ok(Runner {
            machine: machine_of(alloc, &self.machine)?,
        })
    }

    /// What the process asks.
    pub fn request(&self) -> &Request
        ensures { result.now ≡ self.now.machine.request }
    {
        &self.machine.request
    }

    /// The value that an own place of the process holds.
    pub fn own(&self, number: usize) -> Value
        ensures { result ≡ held_in (slice_get (core_seen self.now.machine).kept.places number) }
    {
        held_in(&self.machine, number)
    }

    /// What the UPDATE block that was entered last wrote, in order.
    pub fn writes(&self) -> &[(u16, Value)]
        ensures { result.now ≡ (core_seen self.now.machine).mode.writes }
    {
        self.machine.writes.as_slice()
    }

    /// How many turns it has left.
    pub fn turns(&self) -> u32
        ensures { result ≡ (core_seen self.now.machine).mode.turns }
    {
        self.machine.turns
    }

    /// The process is answered, and goes on until it asks again. Where memory runs out it can't go on.
    pub fn answer(&mut self, setting: &Prepared<'_>, reply: Reply) -> Result<(), AllocError>
        requires begin { setting.now.plain.begin < 2 ^ 64 - 1 }
        requires shapes { ShapesFit setting.now.plain.image.now }
        requires fits { AnswerFits (asked_seen setting.now.plain.image.now self.old).wait }
        requires ready { AreReady setting.now.plain.image.now setting.now.ready.now }
        requires way { WayFits (prepared_seen setting.now) (after_answer (prepared_seen setting.now) (asked_seen setting.now.plain.image.now self.old).wait (reply_seen reply) (asked_seen setting.now.plain.image.now self.old).core) }
        requires room { IsAmple setting.now.plain.image.now self.old.machine.blocks.room }
        ensures room { self.new.machine.blocks.room ≡ self.old.machine.blocks.room }
        ensures does { (answers : List Answered) → asked_seen setting.now.plain.image.now self.old ≡ course (prepared_seen setting.now) answers → OnOk result (asked_seen setting.now.plain.image.now self.new ≡ course (prepared_seen setting.now) (answers ++ (reply_seen reply ∷ []))) }
    {
        let wait = std::mem::replace(&mut self.machine.wait, Wait::Tried);
        let step = answered(&mut self.machine, &setting.plain, wait, reply)?;
        settle(&mut self.machine, setting, step)?;
        Ok(())
    }
}
