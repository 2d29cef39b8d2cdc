//! The plain executive over the loads of the rows.

use crate::loads::Unit;
use crate::plays::{Line, play, started};
use crate::row_loads::{
    CANCELLED, COUNTING, GUARDED, PREEMPTED, SIGNALLED, STOPPED, TERMINATED, TWICE,
};
use exec_model::{End, Event, How, Plain, Procs};
use hal_values::{ErrNo, Value};
use std::alloc::{AllocError, Global};

const P_CLOSED: End = End {
    process: 0,
    clock: 0,
    how: How::Closed,
    cycles: 1,
};

const T_CLOSED: End = End {
    process: 1,
    ..P_CLOSED
};

const T_CANCELLED: End = End {
    how: How::Cancelled,
    ..T_CLOSED
};

const P_TERMINATED: End = End {
    how: How::Terminated,
    cycles: 0,
    ..P_CLOSED
};

const T_TERMINATED: End = End {
    process: 1,
    ..P_TERMINATED
};

const P_STOPPED: End = End {
    how: How::Error(ErrNo {
        group: 2,
        number: 1,
    }),
    cycles: 0,
    ..P_CLOSED
};

/// These events, each so many times.
fn repeated(alloc: Global, events: &[(Event, u32)]) -> Result<Vec<Event>, AllocError> {
    let mut all = Vec::new(alloc);
    for (event, count) in events {
        for _ in 0..*count {
            all.push(*event)?;
        }
    }
    Ok(all)
}

fn numbers(alloc: Global, numbers: &[i32]) -> Result<Vec<Value>, AllocError> {
    let mut values = Vec::new(alloc);
    for number in numbers {
        values.push(Value::Int(*number))?;
    }
    Ok(values)
}

/// The events are these, each so many times.
pub(crate) fn has_made<P: Procs + Drop>(
    alloc: Global,
    plain: &Plain<P>,
    journal: &[(Event, u32)],
) -> Result<bool, AllocError> {
    let journal = repeated(alloc, journal)?;
    Ok(plain.journal().as_slice() == journal.as_slice())
}

/// The channel lines and the ends are these.
fn has_told<P: Procs + Drop>(plain: &Plain<P>, output: &str, ends: &[End]) -> bool {
    let state = plain.state();
    state.output.as_slice() == output.as_bytes() && state.ends.as_slice() == ends
}

/// The shared cells hold these numbers.
pub(crate) fn has_stored<P: Procs + Drop>(
    alloc: Global,
    plain: &Plain<P>,
    store: &[i32],
) -> Result<bool, AllocError> {
    let store = numbers(alloc, store)?;
    Ok(plain.state().store.as_slice() == store.as_slice())
}

/// A run of a load: the script, and what is to come of it.
#[derive(Clone, Copy)]
pub(crate) struct Played {
    pub(crate) name: &'static str,
    unit: &'static Unit,
    lanes: u8,
    script: &'static [Line],
    /// The events, each so many times.
    journal: &'static [(Event, u32)],
    /// The channel lines.
    output: &'static str,
    ends: &'static [End],
    /// What the shared cells hold.
    store: &'static [i32],
}

/// Whether each event of the script may come, and what comes of them is as it is to be.
fn comes<P: Procs + Drop>(
    alloc: Global,
    plain: &mut Plain<P>,
    row: &Played,
) -> Result<bool, AllocError> {
    let allowed = play(plain, row.script)?;
    let made = has_made(alloc, plain, row.journal)?;
    let stored = has_stored(alloc, plain, row.store)?;
    let told = has_told(plain, row.output, row.ends);
    Ok(allowed && made && stored && told)
}

impl Played {
    /// Whether the load is right, each event of the script may come in its run, and what comes of them is
    /// as it is to be.
    pub(crate) fn is_kept(&self, alloc: Global) -> Result<bool, AllocError> {
        match started(alloc, self.unit, self.lanes)? {
            None => Ok(false),
            Some(mut plain) => comes(alloc, &mut plain, self),
        }
    }
}

/// The runs of the loads, worked out from docs/EXECUTIVE.md.
pub(crate) const PLAYED: [Played; 10] = [
    Played {
        name: "a failed schedule is ignored",
        unit: &TWICE,
        lanes: 1,
        script: &[Line::Run(50)],
        journal: &[
            (Event::Act(0), 4),
            (Event::Act(1), 3),
            (Event::Act(0), 3),
            (Event::Act(1), 3),
        ],
        output: "6: T\n6: AGAIN\n6: T\n",
        ends: &[T_CLOSED, P_CLOSED, T_CLOSED],
        store: &[],
    },
    Played {
        name: "a failed schedule stops its process",
        unit: &STOPPED,
        lanes: 1,
        script: &[Line::Run(50)],
        journal: &[(Event::Act(0), 4), (Event::Act(1), 3)],
        output: "6: T\n",
        ends: &[P_STOPPED, T_CLOSED],
        store: &[],
    },
    Played {
        name: "two cycles are due",
        unit: &COUNTING,
        lanes: 1,
        script: &[Line::Run(100), Line::One(Event::Tick(80)), Line::Run(100)],
        journal: &[
            (Event::Act(0), 3),
            (Event::Act(1), 7),
            (Event::Tick(80), 1),
            (Event::Act(1), 14),
        ],
        output: "6: 1 0\n6: 2 0\n6: 3 0\n",
        ends: &[P_CLOSED],
        store: &[3],
    },
    Played {
        name: "five cycles are due",
        unit: &COUNTING,
        lanes: 1,
        script: &[Line::Run(100), Line::One(Event::Tick(200)), Line::Run(100)],
        journal: &[
            (Event::Act(0), 3),
            (Event::Act(1), 7),
            (Event::Tick(200), 1),
            (Event::Act(1), 35),
        ],
        output: "6: 1 0\n6: 2 0\n6: 3 0\n6: 4 0\n6: 5 0\n6: 6 0\n",
        ends: &[P_CLOSED],
        store: &[6],
    },
    Played {
        name: "a signal is short",
        unit: &SIGNALLED,
        lanes: 1,
        script: &[Line::Run(50)],
        journal: &[
            (Event::Act(0), 2),
            (Event::Act(1), 2),
            (Event::Act(0), 1),
            (Event::Act(2), 2),
            (Event::Act(0), 1),
            (Event::Act(1), 2),
            (Event::Act(0), 4),
        ],
        output: "6: A\n6: 0 1\n",
        ends: &[T_CLOSED, P_CLOSED],
        store: &[],
    },
    Played {
        name: "a cancel waits for the cycle",
        unit: &CANCELLED,
        lanes: 1,
        script: &[Line::Run(100), Line::One(Event::Tick(500)), Line::Run(100)],
        journal: &[
            (Event::Act(0), 2),
            (Event::Act(1), 2),
            (Event::Act(0), 2),
            (Event::Act(3), 2),
            (Event::Act(0), 4),
            (Event::Tick(500), 1),
            (Event::Act(3), 2),
        ],
        output: "6: C\n",
        ends: &[
            T_CANCELLED,
            End {
                process: 2,
                cycles: 0,
                ..T_CANCELLED
            },
            P_CLOSED,
            End {
                process: 3,
                clock: 500,
                ..T_CANCELLED
            },
        ],
        store: &[],
    },
    Played {
        name: "all end together",
        unit: &TERMINATED,
        lanes: 1,
        script: &[Line::Run(10)],
        journal: &[(Event::Act(0), 3)],
        output: "",
        ends: &[T_TERMINATED, P_TERMINATED],
        store: &[0],
    },
    Played {
        name: "a block is done before the end",
        unit: &TERMINATED,
        lanes: 2,
        script: &[
            Line::One(Event::Act(0)),
            Line::One(Event::Act(0)),
            Line::One(Event::Act(1)),
            Line::One(Event::Open(1)),
            Line::One(Event::Act(0)),
            Line::One(Event::Block(1, 0)),
            Line::Run(10),
        ],
        journal: &[
            (Event::Act(0), 2),
            (Event::Act(1), 1),
            (Event::Open(1), 1),
            (Event::Act(0), 1),
            (Event::Block(1, 0), 1),
        ],
        output: "",
        ends: &[T_TERMINATED, P_TERMINATED],
        store: &[2],
    },
    Played {
        name: "a process gives way",
        unit: &PREEMPTED,
        lanes: 1,
        script: &[Line::Run(6), Line::One(Event::Preempt(1)), Line::Run(100)],
        journal: &[
            (Event::Act(0), 4),
            (Event::Act(1), 2),
            (Event::Preempt(1), 1),
            (Event::Act(2), 3),
            (Event::Act(1), 2),
        ],
        output: "6: A1\n6: B1\n6: A2\n",
        ends: &[
            P_CLOSED,
            End {
                process: 2,
                ..P_CLOSED
            },
            T_CLOSED,
        ],
        store: &[],
    },
    Played {
        name: "a guard ends the cycles",
        unit: &GUARDED,
        lanes: 1,
        script: &[
            Line::Run(20),
            Line::One(Event::Tick(1000)),
            Line::Run(20),
            Line::One(Event::Tick(1000)),
            Line::Run(20),
        ],
        journal: &[
            (Event::Act(0), 2),
            (Event::Act(1), 4),
            (Event::Act(0), 1),
            (Event::Tick(1000), 1),
            (Event::Act(1), 4),
            (Event::Tick(1000), 1),
        ],
        output: "6: 0\n6: 1\n",
        ends: &[
            P_CLOSED,
            End {
                clock: 2_000,
                cycles: 2,
                ..T_CANCELLED
            },
        ],
        store: &[],
    },
];
