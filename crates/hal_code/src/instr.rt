use crate::choice::Choice;
use crate::heap_text::HeapText;
use crate::operand::{Delay, EventChange, Limit, Places, Response, Round, Start};
use hal_operations::{Op1, Op2};
use hal_values::Kind;

/// An instruction, in the order of the codes. Targets are the numbers of instructions, counted from 0 over the whole code; views, blocks, places,
/// events and processes are given by their numbers. In a process's place 255 is the process itself.
#[derive(Drop, PartialEq, Eq)]
pub enum Instr {
    /// An integer is put on the stack.
    Int(i32),
    /// A bit string is put on the stack.
    Bits {
        len: u8,
        word: u32,
    },
    /// A text is put on the stack.
    Text(HeapText),
    /// Of the integers on the stack, one for each dimension of the view, comes the address of a cell.
    Cell(u32),
    /// The same, of the cells of a shape.
    Whole(u32),
    /// The value at an address takes its place.
    Fetch,
    /// The value at an address is put on it.
    Peek,
    /// A value is stored at an address, after conversion.
    Keep,
    /// The top value once more.
    Dup,
    /// The top value goes.
    Drop,
    /// The value of an event is put on the stack.
    Event(u16),
    /// An operation with one operand.
    Op1(Choice<Op1>),
    /// An operation with two operands.
    Op2(Choice<Op2>),
    /// The length of the value that lies so deep below the top.
    Len(u8),
    /// A part of a value.
    Pick(Choice<Places>),
    /// A part of the value at an address is replaced: of a value, an address, the old value and places comes the new value below its address.
    Patch(Choice<Places>),
    /// Control goes on at the target.
    Jump(u64),
    /// Control goes on at the target where the bit string is zeros.
    JumpNot(u64),
    /// A turn of a loop; where the turns are used up and that is ignored, control goes on at the target.
    Turn(u64),
    /// A block is called.
    Call(u32),
    /// A block that was called ends, with the top value where it has a result.
    Return,
    /// An entry for errors is set; group and number 0 stand for any.
    On {
        group: u8,
        number: u8,
        response: Choice<Response>,
        change: Choice<EventChange>,
        event: u16,
        target: u64,
    },
    /// An entry for errors is taken back.
    Off {
        group: u8,
        number: u8,
    },
    /// An error arises.
    Raise {
        group: u8,
        number: u8,
    },
    /// The group of the last error.
    ErrGrp,
    /// The number of the last error.
    ErrNum,
    /// An own place refers from then on to the cells at the address.
    Bind(u32),
    /// Own places from this one on get the values of the cells at the address.
    Copy(u32),
    /// So many own places have their first values again.
    Clear {
        place: u32,
        count: u32,
    },
    /// Of a value, a step and an end come the next value and one bit that is set unless it is past the end.
    Next,
    /// A cycle begins.
    Begin,
    /// A cycle is done.
    Finish,
    /// A process is scheduled.
    Schedule {
        process: u8,
        start: Start,
        /// Whether the priority is on the stack; else it is 50.
        priority: Choice<bool>,
        dependent: Choice<bool>,
        round: Round,
        limit: Limit,
    },
    /// A process is cancelled.
    Cancel(u8),
    /// A process is ended with its descendants.
    Terminate(u8),
    /// The process waits.
    Wait(Delay),
    /// An event is TRUE for a moment.
    Signal(u16),
    /// An event becomes TRUE.
    Set(u16),
    /// An event becomes FALSE.
    Reset(u16),
    /// A process has the priority on the stack from then on.
    Priority(u8),
    /// A value is added to the line, after a blank.
    Item,
    /// The line goes to the channel.
    Print(u8),
    /// The channel's next datum, for a receiver of this kind; without one control goes on at the target.
    Input {
        channel: u8,
        kind: Kind,
        target: u64,
    },
    /// The clock in seconds.
    Now,
    /// An UPDATE block begins, with a bit for each of its lock groups.
    Open(u16),
    /// The UPDATE block ends.
    Close,
}
