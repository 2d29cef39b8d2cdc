ghost use Rattle.std.specs.Prelude.{◌≡◌, ◌≢◌, ℕ, ◌+◌, ◌-◌, ◌<◌, ◌≤◌, List, Option, Some, None, slice_index, IfOk, IfSome, OnOk, OnErr, IsSomeAnd};
ghost use Rattle.hal_values.specs.Answers.{Answered};
ghost use Rattle.hal_values.specs.Loads.{FitsNext, IsUpdate};
ghost use Rattle.hal_values.specs.Requests.{HasProcess};
ghost use Rattle.hal_values.specs.Tables.{IsSnapshot};
ghost use Rattle.hal_values.specs.declared.value.Value.{Value};
ghost use Rattle.exec_model.specs.Meanings.{meaning};
ghost use Rattle.exec_model.specs.Processes.{Look, look_at, told_answer, SameLooksBut, SameRoomsBut, HasRooms, NotLower};
ghost use Rattle.exec_model.specs.Moments.{answers_in, pushed_answer};

use hal_values::{Answer, Load, Request, Tables, Value};
use std::alloc::AllocError;

/// The processes of a load: what each asks after the answers that it got. A contract sees the load,
/// which never changes, and for each process its answers, its room for further ones, and its last look
/// at an UPDATE block.
pub trait Procs {
    type Of: Load;

    /// The load.
    ghost load: { Self → Self.Of };

    /// The answers that each process got.
    ghost answers: { Self → List (List Answered) };

    /// For how many further answers each process has room.
    ghost rooms: { Self → List ℕ };

    /// For each process whose last call was `block`, what it was made over.
    ghost looks: { Self → List (Option Look) };

    /// The load's tables.
    fn tables(&self) -> &Tables
        ensures { result.now ≡ Self.Of.tables (load self.now) };

    /// What the process asks after its answers.
    fn ask(&mut self, process: u8) -> Result<Request, AllocError>
        requires { HasProcess (Self.Of.tables (load self.old)) process }
        ensures asked { IfOk result (λ asked. asked ≡ Self.Of.next (load self.old) process (answers_in (answers self.old) process)) }
        ensures same { (load self.new ≡ load self.old) × (answers self.new ≡ answers self.old) }
        ensures room { NotLower (rooms self.old) (rooms self.new) }
        ensures others { SameLooksBut process (looks self.old) (looks self.new) };

    /// Makes room for at least four further answers of each process.
    fn reserve(&mut self) -> Result<(), AllocError>
        ensures room { OnOk result (HasRooms (Self.Of.tables (load self.old)) (rooms self.new)) }
        ensures same { (load self.new ≡ load self.old) × (answers self.new ≡ answers self.old) × (looks self.new ≡ looks self.old) }
        ensures no_lower { NotLower (rooms self.old) (rooms self.new) };

    /// Looks at the UPDATE block that the process asks for: which writes it makes over this store, and
    /// after how many turns it ends.
    fn block(
        &mut self,
        process: u8,
        store: &[Value],
        writes: &mut Vec<(u16, Value)>,
    ) -> Result<u16, AllocError>
        requires exists { HasProcess (Self.Of.tables (load self.old)) process }
        requires asks { IsUpdate (Self.Of.next (load self.old) process (answers_in (answers self.old) process)) }
        requires snapshot { IsSnapshot (Self.Of.tables (load self.old)).cells store.now }
        ensures found { IfOk result (λ turns. Self.Of.block (load self.old) process (answers_in (answers self.old) process) store.now turns ≡ Some writes.new.items) }
        ensures look { IfOk result (λ turns. look_at (looks self.new) process ≡ Some (record { store = store.now; turns = turns })) }
        ensures refused { OnErr result ((looks self.new ≡ looks self.old) × (writes.new.items ≡ writes.old.items)) }
        ensures same { (load self.new ≡ load self.old) × (answers self.new ≡ answers self.old) }
        ensures room { NotLower (rooms self.old) (rooms self.new) }
        ensures others { SameLooksBut process (looks self.old) (looks self.new) };

    /// Answers the process. It takes no memory. Closed stands for the answer to the UPDATE block at which
    /// the process's last call looked.
    fn tell(&mut self, process: u8, answer: Answer)
        requires exists { HasProcess (Self.Of.tables (load self.old)) process }
        requires room { 0 < slice_index (rooms self.old) process }
        requires fits { IsSomeAnd (told_answer (look_at (looks self.old) process) answer) (λ given. FitsNext (meaning Self.Of.Load (load self.old)) process (answers_in (answers self.old) process) given) }
        ensures told { IfSome (told_answer (look_at (looks self.old) process) answer) (λ given. answers self.new ≡ pushed_answer (answers self.old) process given) }
        ensures load { load self.new ≡ load self.old }
        ensures room { slice_index (rooms self.new) process + 1 ≡ slice_index (rooms self.old) process }
        ensures other_rooms { SameRoomsBut process (rooms self.old) (rooms self.new) }
        ensures others { SameLooksBut process (looks self.old) (looks self.new) };
}
