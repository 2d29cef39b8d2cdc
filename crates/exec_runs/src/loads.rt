//! The loads of the rows, as the code makes them.

use exec_rows::{Ask, Scripted};
use hal_values::{
    Cell, ErrNo, EventStart, Item, Kind, Line, Listing, Pause, Plan, ReportBase, ReportName,
    Request, Spot, Tables, Text, Value,
};
use std::alloc::{AllocError, Global};

/// What stands in a body.
#[derive(Clone, Copy)]
pub(crate) enum Step {
    Schedule(Plan),
    Cancel(u8),
    Terminate(u8),
    Wait(Pause),
    Signal(u16),
    Read(Spot),
    Write(u16, i32),
    Now,
    Stop(u8, u8),
    /// A line to channel 6.
    Says(&'static str),
    /// An UPDATE block of these lock groups, which writes this pair of integers.
    Update(u16, u16, i32, i32),
    /// A request that may not stand in a body.
    Finish,
}

/// What a load is made of.
#[derive(Drop)]
pub(crate) struct Unit {
    pub(crate) names: &'static [&'static str],
    /// The lock groups of integers of 16 bits, which are 0 at first.
    pub(crate) cells: &'static [u8],
    pub(crate) events: &'static [EventStart],
    pub(crate) expressions: &'static [&'static [Item]],
    pub(crate) reports: &'static [(&'static str, ReportBase, u32)],
    pub(crate) bodies: &'static [&'static [&'static [Step]]],
}

fn text(bytes: &str) -> Text {
    Text::of(bytes.as_bytes()).unwrap_or(Text::new())
}

fn line(bytes: &str) -> Line {
    let mut line = Line::new();
    let _fits = line.append(bytes.as_bytes());
    line
}

fn request(step: Step) -> Request {
    match step {
        Step::Schedule(plan) => Request::Schedule(plan),
        Step::Cancel(process) => Request::Cancel(process),
        Step::Terminate(process) => Request::Terminate(process),
        Step::Wait(pause) => Request::Wait(pause),
        Step::Signal(event) => Request::Signal(event),
        Step::Read(spot) => Request::Read(spot),
        Step::Write(cell, number) => Request::Write(cell, Value::Int(number)),
        Step::Now => Request::Now,
        Step::Stop(group, number) => Request::Stop(ErrNo { group, number }),
        Step::Says(bytes) => Request::Print(6, line(bytes)),
        Step::Update(groups, _, _, _) => Request::Update(groups),
        Step::Finish => Request::Finish,
    }
}

/// Makes loads. Where memory is wanting it notes that and goes on, and there is no load in the end: so what makes a part has nothing to ask after
/// each item.
#[derive(Drop)]
pub(crate) struct Maker {
    alloc: Global,
    is_cut: bool,
}

impl Maker {
    /// Nothing was wanting so far.
    pub(crate) fn new(alloc: Global) -> Maker {
        Maker {
            alloc,
            is_cut: false,
        }
    }

    /// What was made, or an error where memory was wanting.
    pub(crate) fn made(self, load: Scripted) -> Result<Scripted, AllocError> {
        if self.is_cut {
            return Err(AllocError);
        }
        Ok(load)
    }

    /// Adds an item.
    pub(crate) fn add<T: Drop>(&mut self, list: &mut Listing<T>, item: T) {
        if list.push(item).is_err() {
            self.is_cut = true;
        }
    }

    /// These items.
    fn list<T: Copy>(&mut self, items: &[T]) -> Listing<T> {
        match items.to_vec(self.alloc) {
            Ok(items) => Listing::new(items),
            Err(_) => {
                self.is_cut = true;
                Listing::empty(self.alloc)
            }
        }
    }

    fn block(&mut self, groups: u16, cell: u16, one: i32, two: i32) -> Ask {
        let mut writes = Listing::empty(self.alloc);
        self.add(&mut writes, (cell, Value::Int(one)));
        self.add(&mut writes, (cell, Value::Int(two)));
        Ask::Update(groups, writes, 0)
    }

    fn ask(&mut self, step: Step) -> Ask {
        match step {
            Step::Update(groups, cell, one, two) => self.block(groups, cell, one, two),
            _ => Ask::Plain(request(step)),
        }
    }

    /// A cycle that asks this.
    fn cycle(&mut self, steps: &[Step]) -> Listing<Ask> {
        let mut asks = Listing::empty(self.alloc);
        for step in steps {
            let ask = self.ask(*step);
            self.add(&mut asks, ask);
        }
        asks
    }

    /// A body of these cycles.
    pub(crate) fn body(&mut self, cycles: &[&[Step]]) -> Listing<Listing<Ask>> {
        let mut body = Listing::empty(self.alloc);
        for steps in cycles {
            let cycle = self.cycle(steps);
            self.add(&mut body, cycle);
        }
        body
    }

    fn bodies(&mut self, given: &[&[&[Step]]]) -> Listing<Listing<Listing<Ask>>> {
        let mut bodies = Listing::empty(self.alloc);
        for cycles in given {
            let body = self.body(cycles);
            self.add(&mut bodies, body);
        }
        bodies
    }

    /// Integers of 16 bits in these lock groups.
    fn cells(&mut self, groups: &[u8]) -> Listing<Cell> {
        let mut cells = Listing::empty(self.alloc);
        for group in groups {
            let cell = Cell {
                kind: Kind::Single,
                group: *group,
                initial: Value::Int(0),
            };
            self.add(&mut cells, cell);
        }
        cells
    }

    fn processes(&mut self, names: &[&str]) -> Listing<Text> {
        let mut processes = Listing::empty(self.alloc);
        for name in names {
            self.add(&mut processes, text(name));
        }
        processes
    }

    fn expressions(&mut self, given: &[&[Item]]) -> Listing<Listing<Item>> {
        let mut expressions = Listing::empty(self.alloc);
        for items in given {
            let expression = self.list(items);
            self.add(&mut expressions, expression);
        }
        expressions
    }

    fn report_name(&mut self, name: &str, base: ReportBase, first: u32) -> ReportName {
        ReportName {
            name: self.list(name.as_bytes()),
            base,
            first,
            copies: 0,
            stride: 0,
            dimensions: Listing::empty(self.alloc),
        }
    }

    fn report_names(&mut self, given: &[(&str, ReportBase, u32)]) -> Listing<ReportName> {
        let mut names = Listing::empty(self.alloc);
        for (name, base, first) in given {
            let name = self.report_name(name, *base, *first);
            self.add(&mut names, name);
        }
        names
    }

    fn tables(&mut self, unit: &Unit) -> Tables {
        Tables {
            cells: self.cells(unit.cells),
            processes: self.processes(unit.names),
            first: 0,
            events: self.list(unit.events),
            expressions: self.expressions(unit.expressions),
            names: self.report_names(unit.reports),
        }
    }

    /// The load that is made of this.
    pub(crate) fn load(&mut self, unit: &Unit) -> Scripted {
        Scripted {
            tables: self.tables(unit),
            bodies: self.bodies(unit.bodies),
        }
    }
}

/// The load that is made of this.
pub(crate) fn load(alloc: Global, unit: &Unit) -> Result<Scripted, AllocError> {
    let mut maker = Maker::new(alloc);
    let load = maker.load(unit);
    maker.made(load)
}
