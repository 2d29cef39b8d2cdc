//! What the loads of the rows are made of.

use crate::loads::{Step, Unit};
use hal_values::{Cycle, EventStart, Guard, Item, Pause, Plan, Spot, When};

/// Process 1 starts now, for one cycle.
const SOON: Plan = Plan {
    process: 1,
    when: When::Now,
    priority: 50,
    dependent: false,
    cycle: Cycle::Once,
    guard: Guard::Free,
};

/// The same with a lower priority.
const LATER: Plan = Plan {
    priority: 40,
    ..SOON
};

/// Process 1 starts now with priority 60, and has a cycle every second.
const EACH_SECOND: Plan = Plan {
    priority: 60,
    cycle: Cycle::Every(1_000),
    ..SOON
};

/// Two processes that ask nothing.
const PAIR: Unit = Unit {
    names: &["P", "P.T"],
    cells: &[],
    events: &[],
    expressions: &[],
    reports: &[],
    bodies: &[],
};

/// P schedules T twice, waits until T isn't active, writes, and schedules it once more.
pub(crate) const TWICE: Unit = Unit {
    expressions: &[&[Item::Event(1), Item::Not]],
    bodies: &[
        &[&[
            Step::Schedule(LATER),
            Step::Schedule(LATER),
            Step::Wait(Pause::Event(0)),
            Step::Says(" AGAIN"),
            Step::Schedule(LATER),
        ]],
        &[&[Step::Says(" T")], &[Step::Says(" T")]],
    ],
    ..PAIR
};

/// P schedules T twice, and stops at the error of the second time.
pub(crate) const STOPPED: Unit = Unit {
    bodies: &[
        &[&[
            Step::Schedule(LATER),
            Step::Schedule(LATER),
            Step::Stop(2, 1),
        ]],
        &[&[Step::Says(" T")]],
    ],
    ..PAIR
};

/// The variable N.
const N: Step = Step::Read(Spot::Cell(0));

/// P schedules T for a cycle every 40 ms; each of its cycles adds 1 to N and writes N and the time.
pub(crate) const COUNTING: Unit = Unit {
    cells: &[0],
    bodies: &[
        &[&[Step::Schedule(Plan {
            cycle: Cycle::Every(40),
            ..LATER
        })]],
        &[
            &[N, Step::Write(0, 1), N, Step::Now, Step::Says(" 1 0")],
            &[N, Step::Write(0, 2), N, Step::Now, Step::Says(" 2 0")],
            &[N, Step::Write(0, 3), N, Step::Now, Step::Says(" 3 0")],
            &[N, Step::Write(0, 4), N, Step::Now, Step::Says(" 4 0")],
            &[N, Step::Write(0, 5), N, Step::Now, Step::Says(" 5 0")],
            &[N, Step::Write(0, 6), N, Step::Now, Step::Says(" 6 0")],
        ],
    ],
    ..PAIR
};

/// P schedules A, which waits for E, and B, which waits for E AND NOT F, signals E, and writes E and F.
pub(crate) const SIGNALLED: Unit = Unit {
    names: &["P", "P.A", "P.B"],
    events: &[EventStart::Unlatched, EventStart::Latched(true)],
    expressions: &[
        &[Item::Event(3)],
        &[Item::Event(3), Item::Event(4), Item::Not, Item::And],
    ],
    bodies: &[
        &[&[
            Step::Schedule(Plan {
                priority: 60,
                ..SOON
            }),
            Step::Schedule(Plan {
                process: 2,
                priority: 60,
                ..SOON
            }),
            Step::Signal(3),
            Step::Read(Spot::Event(3)),
            Step::Read(Spot::Event(4)),
            Step::Says(" 0 1"),
        ]],
        &[&[Step::Wait(Pause::Event(0)), Step::Says(" A")]],
        &[&[Step::Wait(Pause::Event(1)), Step::Says(" B")]],
    ],
    ..PAIR
};

/// P schedules A now, B in 5 s and C now, each with a cycle every second, and cancels them; C waits half
/// a second.
pub(crate) const CANCELLED: Unit = Unit {
    names: &["P", "P.A", "P.B", "P.C"],
    bodies: &[
        &[&[
            Step::Schedule(EACH_SECOND),
            Step::Schedule(Plan {
                process: 2,
                when: When::After(5_000),
                ..EACH_SECOND
            }),
            Step::Schedule(Plan {
                process: 3,
                ..EACH_SECOND
            }),
            Step::Cancel(1),
            Step::Cancel(2),
            Step::Cancel(3),
        ]],
        &[],
        &[],
        &[&[Step::Wait(Pause::For(500)), Step::Says(" C")]],
    ],
    ..PAIR
};

/// P schedules D as its dependent and terminates itself; D sets K to 1 and 2 in an UPDATE block, and then
/// would write.
pub(crate) const TERMINATED: Unit = Unit {
    names: &["P", "P.D"],
    cells: &[1],
    bodies: &[
        &[&[
            Step::Schedule(Plan {
                dependent: true,
                ..SOON
            }),
            Step::Terminate(0),
        ]],
        &[&[Step::Update(2, 0, 1, 2), Step::Says(" NO")]],
    ],
    ..PAIR
};

/// P schedules D, which has an UPDATE block over K, and reads K.
pub(crate) const HELD: Unit = Unit {
    names: &["P", "P.D"],
    cells: &[1],
    bodies: &[
        &[&[Step::Schedule(SOON), Step::Read(Spot::Cell(0))]],
        &[&[Step::Update(2, 0, 1, 2)]],
    ],
    ..PAIR
};

/// P schedules A and B, of its own priority; A writes twice and B once.
pub(crate) const PREEMPTED: Unit = Unit {
    names: &["P", "P.A", "P.B"],
    bodies: &[
        &[&[
            Step::Schedule(SOON),
            Step::Schedule(Plan { process: 2, ..SOON }),
        ]],
        &[&[Step::Says(" A1"), Step::Says(" A2")]],
        &[&[Step::Says(" B1")]],
    ],
    ..PAIR
};

/// P schedules T for a cycle every second until 2 s, and each cycle writes the time.
pub(crate) const GUARDED: Unit = Unit {
    bodies: &[
        &[&[Step::Schedule(Plan {
            guard: Guard::UntilTime(2_000),
            ..EACH_SECOND
        })]],
        &[
            &[Step::Now, Step::Says(" 0")],
            &[Step::Now, Step::Says(" 1")],
        ],
    ],
    ..PAIR
};
