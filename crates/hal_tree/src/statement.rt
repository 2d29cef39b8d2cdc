//! Statements. A node's place is that of its first word.

use crate::expression::{Expr, Reference};
use crate::leaf::Identifier;
use hal_base::Place;

/// How long a loop goes on.
pub enum Guard {
    /// `WHILE condition`
    While { place: Place, condition: Expr },
    /// `UNTIL condition`
    Until { place: Place, condition: Expr },
}

impl Drop for Guard {
    fn drop(self) {
        match self {
            Guard::While {
                place: _,
                condition: _condition,
            } => {}
            Guard::Until {
                place: _,
                condition: _condition,
            } => {}
        }
    }
}

/// The values that a loop's variable takes.
pub enum Span {
    /// `first TO last BY step`
    Range {
        first: Expr,
        last: Expr,
        step: Option<Expr>,
    },
    /// `1, 3, 7`
    List {
        values: Vec<Expr>,
    },
}

impl Drop for Span {
    fn drop(self) {
        match self {
            Span::Range {
                first: _first,
                last: _last,
                step: _step,
            } => {}
            Span::List { values: _values } => {}
        }
    }
}

/// The errors that are meant. `place` is that of `$`, the others are those of the numbers.
#[derive(Clone, Copy, PartialEq, Eq)]
pub enum Selector {
    /// Nothing after ERROR.
    Every,
    /// `$1`, `$(1:*)`
    Group {
        place: Place,
        group_at: Place,
        group: u32,
    },
    /// `$(1:2)`
    One {
        place: Place,
        group_at: Place,
        group: u32,
        number_at: Place,
        number: u32,
    },
}

/// What happens to an event: SIGNAL, SET, RESET.
#[derive(Clone, Copy, PartialEq, Eq)]
pub enum EventAction {
    Signal,
    Set,
    Reset,
}

/// An event and what happens to it: `SET E`.
#[derive(Clone, Copy, PartialEq, Eq)]
pub struct EventChange {
    pub place: Place,
    pub action: EventAction,
    pub name: Identifier,
}

/// What answers an error: SYSTEM or IGNORE.
#[derive(Clone, Copy, PartialEq, Eq)]
pub enum Response {
    System,
    Ignore,
}

/// When a process starts.
pub enum Start {
    /// `AT time`
    At { place: Place, time: Expr },
    /// `IN time`
    In { place: Place, time: Expr },
    /// `ON event`
    On { place: Place, event: Expr },
}

impl Drop for Start {
    fn drop(self) {
        match self {
            Start::At {
                place: _,
                time: _time,
            } => {}
            Start::In {
                place: _,
                time: _time,
            } => {}
            Start::On {
                place: _,
                event: _event,
            } => {}
        }
    }
}

/// When a process runs again. The place is that of REPEAT.
pub enum Cycle {
    /// `REPEAT`
    Repeat { place: Place },
    /// `REPEAT EVERY time`
    Every { place: Place, time: Expr },
    /// `REPEAT AFTER time`
    After { place: Place, time: Expr },
}

impl Drop for Cycle {
    fn drop(self) {
        match self {
            Cycle::Repeat { place: _ } => {}
            Cycle::Every {
                place: _,
                time: _time,
            } => {}
            Cycle::After {
                place: _,
                time: _time,
            } => {}
        }
    }
}

/// What SCHEDULE says: `P AT 1 PRIORITY(2) DEPENDENT, REPEAT EVERY 5 UNTIL E`.
pub struct Schedule {
    pub name: Identifier,
    pub start: Option<Start>,
    pub priority: Option<Expr>,
    pub dependent: bool,
    pub cycle: Option<Cycle>,
    pub guard: Option<Guard>,
}

impl Drop for Schedule {
    fn drop(self) {
        let Schedule {
            name: _,
            start: _start,
            priority: _priority,
            dependent: _,
            cycle: _cycle,
            guard: _guard,
        } = self;
    }
}

/// Labels, and what they stand before: `L: M: A = 1;`.
#[cycle(statements)]
pub struct Statement {
    pub labels: Vec<Identifier>,
    pub basic: Basic,
}

impl Drop for Statement {
    #[cycle(statements)]
    fn drop(self) {
        let Statement {
            labels: _labels,
            basic: _basic,
        } = self;
    }
}

/// A statement without its labels.
#[cycle(statements)]
pub enum Basic {
    /// `;`
    Null {
        place: Place,
    },
    /// `A, B = value;`
    Assignment {
        place: Place,
        receivers: Vec<Reference>,
        value: Expr,
    },
    /// `IF condition THEN consequence ELSE alternative`
    If {
        place: Place,
        condition: Expr,
        consequence: Box<Statement>,
        alternative: Option<Box<Statement>>,
    },
    /// `DO; A = 1; END;`
    Do {
        place: Place,
        group: Group,
    },
    /// `DO CASE selector; ELSE alternative A = 1; B = 2; END;`
    DoCase {
        place: Place,
        selector: Expr,
        alternative: Option<Box<Statement>>,
        group: Group,
    },
    /// `DO WHILE A < 3; A = A + 1; END;`
    DoLoop {
        place: Place,
        guard: Guard,
        group: Group,
    },
    /// `DO FOR TEMPORARY variable = 1 TO 5 WHILE A < 3; A = A + 1; END;`
    DoFor {
        place: Place,
        temporary: bool,
        variable: Identifier,
        span: Span,
        guard: Option<Guard>,
        group: Group,
    },
    /// `EXIT label;`
    Exit {
        place: Place,
        label: Option<Identifier>,
    },
    /// `REPEAT label;`
    Repeat {
        place: Place,
        label: Option<Identifier>,
    },
    /// `RETURN value;`
    Return {
        place: Place,
        value: Option<Expr>,
    },
    /// `CALL name(argument, argument) ASSIGN(A, B);`
    Call {
        place: Place,
        name: Identifier,
        arguments: Vec<Expr>,
        receivers: Vec<Reference>,
    },
    /// `READ(channel) A, B;`
    Read {
        place: Place,
        channel: Expr,
        receivers: Vec<Reference>,
    },
    /// `WRITE(channel) A, B + 1;`
    Write {
        place: Place,
        channel: Expr,
        items: Vec<Expr>,
    },
    /// `UPDATE; A = 1; CLOSE name;`
    Update {
        place: Place,
        body: Vec<Statement>,
        close: Option<Identifier>,
    },
    /// `SCHEDULE P AT 1;`
    Schedule {
        place: Place,
        schedule: Schedule,
    },
    /// `CANCEL P, Q;`
    Cancel {
        place: Place,
        names: Vec<Identifier>,
    },
    /// `TERMINATE P, Q;`
    Terminate {
        place: Place,
        names: Vec<Identifier>,
    },
    /// `WAIT time;`
    Wait {
        place: Place,
        time: Expr,
    },
    /// `WAIT UNTIL time;`
    WaitUntil {
        place: Place,
        time: Expr,
    },
    /// `WAIT FOR DEPENDENT;`
    WaitForDependent {
        place: Place,
    },
    /// `WAIT FOR event;`
    WaitFor {
        place: Place,
        event: Expr,
    },
    /// `SET E;`
    Event(EventChange),
    /// `UPDATE PRIORITY name TO priority;`
    UpdatePriority {
        place: Place,
        name: Option<Identifier>,
        priority: Expr,
    },
    /// `ON ERROR$(1:2) handler`
    OnErrorStatement {
        place: Place,
        selector: Selector,
        handler: Box<Statement>,
    },
    /// `ON ERROR$(1:2) IGNORE AND SET E;`
    OnErrorResponse {
        place: Place,
        selector: Selector,
        response: Response,
        event: Option<EventChange>,
    },
    /// `OFF ERROR$(1:2);`
    OffError {
        place: Place,
        selector: Selector,
    },
    /// `SEND ERROR$(1:2);`
    SendError {
        place: Place,
        group_at: Place,
        group: u32,
        number_at: Place,
        number: u32,
    },
}

impl Drop for Basic {
    #[cycle(statements)]
    fn drop(self) {
        match self {
            Basic::Null { place: _ } => {}
            Basic::Assignment {
                place: _,
                receivers: _receivers,
                value: _value,
            } => {}
            Basic::If {
                place: _,
                condition: _condition,
                consequence: _consequence,
                alternative: _alternative,
            } => {}
            Basic::Do {
                place: _,
                group: _group,
            } => {}
            Basic::DoCase {
                place: _,
                selector: _selector,
                alternative: _alternative,
                group: _group,
            } => {}
            Basic::DoLoop {
                place: _,
                guard: _guard,
                group: _group,
            } => {}
            Basic::DoFor {
                place: _,
                temporary: _,
                variable: _,
                span: _span,
                guard: _guard,
                group: _group,
            } => {}
            Basic::Exit { place: _, label: _ } => {}
            Basic::Repeat { place: _, label: _ } => {}
            Basic::Return {
                place: _,
                value: _value,
            } => {}
            Basic::Call {
                place: _,
                name: _,
                arguments: _arguments,
                receivers: _receivers,
            } => {}
            Basic::Read {
                place: _,
                channel: _channel,
                receivers: _receivers,
            } => {}
            Basic::Write {
                place: _,
                channel: _channel,
                items: _items,
            } => {}
            Basic::Update {
                place: _,
                body: _body,
                close: _,
            } => {}
            Basic::Schedule {
                place: _,
                schedule: _schedule,
            } => {}
            Basic::Cancel {
                place: _,
                names: _names,
            } => {}
            Basic::Terminate {
                place: _,
                names: _names,
            } => {}
            Basic::Wait {
                place: _,
                time: _time,
            } => {}
            Basic::WaitUntil {
                place: _,
                time: _time,
            } => {}
            Basic::WaitForDependent { place: _ } => {}
            Basic::WaitFor {
                place: _,
                event: _event,
            } => {}
            Basic::Event(_) => {}
            Basic::UpdatePriority {
                place: _,
                name: _,
                priority: _priority,
            } => {}
            Basic::OnErrorStatement {
                place: _,
                selector: _,
                handler: _handler,
            } => {}
            Basic::OnErrorResponse {
                place: _,
                selector: _,
                response: _,
                event: _,
            } => {}
            Basic::OffError {
                place: _,
                selector: _,
            } => {}
            Basic::SendError {
                place: _,
                group_at: _,
                group: _,
                number_at: _,
                number: _,
            } => {}
        }
    }
}

/// The statements of a group, and the name after END: `A = 1; END end;`.
#[cycle(statements)]
pub struct Group {
    pub statements: Vec<Statement>,
    pub end: Option<Identifier>,
}

impl Drop for Group {
    #[cycle(statements)]
    fn drop(self) {
        let Group {
            statements: _statements,
            end: _,
        } = self;
    }
}
