use crate::loads::{Maker, Step, Unit};
use crate::plays::started;
use exec_rows::Scripted;
use hal_values::{Cycle, EventStart, Guard, Item, Pause, Plan, ReportBase, Spot, When};
use std::alloc::{AllocError, Global};

const TWO: Unit = Unit {
    names: &["P", "P.T"],
    cells: &[1],
    events: &[EventStart::Latched(true)],
    expressions: &[&[Item::Event(1), Item::Not], &[Item::Event(2)]],
    reports: &[("P.N", ReportBase::Shared, 0)],
    bodies: &[
        &[&[
            Step::Schedule(Plan {
                process: 1,
                when: When::On(1),
                priority: 50,
                dependent: false,
                cycle: Cycle::Once,
                guard: Guard::Free,
            }),
            Step::Wait(Pause::Event(0)),
            Step::Cancel(1),
        ]],
        &[
            &[Step::Update(2, 0, 1, 2), Step::Write(0, -32_768), Step::Now],
            &[Step::Read(Spot::Event(2)), Step::Says("T")],
        ],
    ],
};

/// What is not in order there.
pub(crate) const WRONG: [Step; 11] = [
    Step::Finish,
    Step::Schedule(Plan {
        process: 2,
        when: When::Now,
        priority: 50,
        dependent: false,
        cycle: Cycle::Once,
        guard: Guard::Free,
    }),
    Step::Schedule(Plan {
        process: 1,
        when: When::At(2_147_483_648_001),
        priority: 50,
        dependent: false,
        cycle: Cycle::Once,
        guard: Guard::Free,
    }),
    Step::Cancel(2),
    Step::Read(Spot::Cell(1)),
    Step::Read(Spot::Event(3)),
    Step::Signal(3),
    Step::Wait(Pause::Event(2)),
    Step::Write(0, 32_768),
    Step::Write(1, 0),
    Step::Update(2, 0, 1, -32_769),
];

/// The load with one body more, which asks this.
fn load_with(alloc: Global, step: Step) -> Result<Scripted, AllocError> {
    let mut maker = Maker::new(alloc);
    let mut load = maker.load(&TWO);
    let more = maker.body(&[&[Step::Now, step]]);
    maker.add(&mut load.bodies, more);
    maker.made(load)
}

/// Whether the load with one body more, which asks this, is right.
fn is_right_with(alloc: Global, step: Step) -> Result<bool, AllocError> {
    let load = load_with(alloc, step)?;
    Ok(load.is_right())
}

/// Whether this stands out as not in order: the load is right without it, and wrong with it.
pub(crate) fn is_wrong(alloc: Global, step: Step) -> Result<bool, AllocError> {
    let right = is_right_with(alloc, Step::Now)?;
    let wrong = is_right_with(alloc, step)?;
    Ok(right && !wrong)
}

/// Whether the load is right without any of it.
pub(crate) fn is_right(alloc: Global) -> Result<bool, AllocError> {
    Ok(started(alloc, &TWO, 1)?.is_some())
}
