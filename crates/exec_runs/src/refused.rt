//! The events that may not come, after which nothing has changed.

use crate::loads::Unit;
use crate::plays::{Line, play, started, step};
use crate::row_loads::{HELD, PREEMPTED, TERMINATED};
use exec_model::{Event, Plain, Procs, Row};
use std::alloc::{AllocError, Global};

/// What is seen of the executive: how many events there were, the moment, and what may come next.
#[derive(Drop, PartialEq, Eq)]
struct Picture {
    events: usize,
    clock: u64,
    stamp: u64,
    rows: Vec<Row>,
    declared: Vec<bool>,
    output: usize,
    ends: usize,
    next: Option<Event>,
}

/// These, each copied.
fn copied<T: Copy>(alloc: Global, all: &[T]) -> Result<Vec<T>, AllocError> {
    let mut copies = Vec::new(alloc);
    for one in all {
        copies.push(*one)?;
    }
    Ok(copies)
}

/// What is seen now.
fn seen<P: Procs + Drop>(alloc: Global, plain: &mut Plain<P>) -> Result<Picture, AllocError> {
    let next = plain.next_event()?;
    let events = plain.journal().as_slice().len();
    let state = plain.state();
    Ok(Picture {
        events,
        clock: state.clock,
        stamp: state.stamp,
        rows: copied(alloc, state.rows.as_slice())?,
        declared: copied(alloc, state.events.as_slice())?,
        output: state.output.as_slice().len(),
        ends: state.ends.as_slice().len(),
        next,
    })
}

/// Whether none of these events is made.
fn makes_none<P: Procs + Drop>(
    plain: &mut Plain<P>,
    refused: &[Event],
) -> Result<bool, AllocError> {
    for event in refused {
        if step(plain, *event)? {
            return Ok(false);
        }
    }
    Ok(true)
}

/// Events that may not come after these lines.
#[derive(Clone, Copy)]
pub(crate) struct Refused {
    pub(crate) name: &'static str,
    unit: &'static Unit,
    lanes: u8,
    lines: &'static [Line],
    events: &'static [Event],
}

/// Whether the executive refuses each of the events after the lines, and nothing changes.
fn stays<P: Procs + Drop>(
    alloc: Global,
    plain: &mut Plain<P>,
    row: &Refused,
) -> Result<bool, AllocError> {
    let allowed = play(plain, row.lines)?;
    let before = seen(alloc, plain)?;
    let none = makes_none(plain, row.events)?;
    let after = seen(alloc, plain)?;
    Ok(allowed && none && before == after)
}

impl Refused {
    /// Whether the load is right, and its executive refuses each of the events after the lines.
    pub(crate) fn is_kept(&self, alloc: Global) -> Result<bool, AllocError> {
        match started(alloc, self.unit, self.lanes)? {
            None => Ok(false),
            Some(mut plain) => stays(alloc, &mut plain, self),
        }
    }
}

/// P has scheduled D, and D has begun and asks for its UPDATE block.
const ASKED: [Line; 2] = [Line::Run(2), Line::One(Event::Act(1))];

/// D is inside the block.
const OPENED: [Line; 3] = [
    Line::Run(2),
    Line::One(Event::Act(1)),
    Line::One(Event::Open(1)),
];

pub(crate) const REFUSED: [Refused; 7] = [
    Refused {
        name: "process 200 and process 2 are unknown",
        unit: &TERMINATED,
        lanes: 2,
        lines: &[],
        events: &[
            Event::Act(200),
            Event::Open(200),
            Event::Block(200, 0),
            Event::Preempt(200),
            Event::Act(2),
            Event::Preempt(2),
        ],
    },
    Refused {
        name: "D is idle, and P asks for no UPDATE block",
        unit: &TERMINATED,
        lanes: 2,
        lines: &[],
        events: &[
            Event::Act(1),
            Event::Open(1),
            Event::Block(1, 0),
            Event::Open(0),
            Event::Block(0, 0),
        ],
    },
    Refused {
        name: "D asks for its UPDATE block, and is not inside it",
        unit: &TERMINATED,
        lanes: 2,
        lines: &ASKED,
        events: &[Event::Act(1), Event::Block(1, 0), Event::Open(0)],
    },
    Refused {
        name: "D is inside its UPDATE block, which ends after no turn",
        unit: &TERMINATED,
        lanes: 2,
        lines: &OPENED,
        events: &[
            Event::Block(1, 1),
            Event::Block(1, 65_535),
            Event::Act(1),
            Event::Open(1),
            Event::Block(0, 0),
        ],
    },
    Refused {
        name: "P goes before A and B, which are Ready too",
        unit: &PREEMPTED,
        lanes: 1,
        lines: &[Line::Run(3)],
        events: &[Event::Act(1), Event::Act(2)],
    },
    Refused {
        name: "A may act beside P, and B may not",
        unit: &PREEMPTED,
        lanes: 2,
        lines: &[Line::Run(3), Line::One(Event::Act(1))],
        events: &[Event::Act(2), Event::Preempt(3)],
    },
    Refused {
        name: "P asks for K, whose lock group the UPDATE block of D has",
        unit: &HELD,
        lanes: 2,
        lines: &OPENED,
        events: &[Event::Act(0)],
    },
];
