//! Units and files.

use crate::declaration::{Declaration, Type};
use crate::leaf::Identifier;
use crate::statement::Statement;
use hal_base::Place;

/// How a block is shared: REENTRANT or EXCLUSIVE.
#[derive(Clone, Copy, PartialEq, Eq)]
pub enum Mode {
    Reentrant { place: Place },
    Exclusive { place: Place },
}

/// The precision of a FUNCTION's result: SINGLE or DOUBLE.
#[derive(Clone, Copy, PartialEq, Eq)]
pub enum Precision {
    Single { place: Place },
    Double { place: Place },
}

/// The type of a FUNCTION's result.
pub enum Returns {
    /// Nothing is said.
    Untyped,
    /// `INTEGER DOUBLE`
    Typed {
        kind: Type,
        precision: Option<Precision>,
    },
}

impl Drop for Returns {
    fn drop(self) {
        match self {
            Returns::Untyped => {}
            Returns::Typed {
                kind: _kind,
                precision: _,
            } => {}
        }
    }
}

/// The head of a unit. The place is that of its first word.
pub enum Head {
    /// `PROGRAM;`
    Program {
        place: Place,
    },
    /// `COMPOOL;`
    Compool {
        place: Place,
    },
    /// `TASK;`
    Task {
        place: Place,
    },
    /// `PROCEDURE(A, B) ASSIGN(C) REENTRANT;`
    Procedure {
        place: Place,
        inputs: Vec<Identifier>,
        outputs: Vec<Identifier>,
        mode: Option<Mode>,
    },
    /// `FUNCTION(A, B) INTEGER DOUBLE EXCLUSIVE;`
    Function {
        place: Place,
        inputs: Vec<Identifier>,
        returns: Returns,
        mode: Option<Mode>,
    },
}

impl Drop for Head {
    fn drop(self) {
        match self {
            Head::Program { place: _ } => {}
            Head::Compool { place: _ } => {}
            Head::Task { place: _ } => {}
            Head::Procedure {
                place: _,
                inputs: _inputs,
                outputs: _outputs,
                mode: _,
            } => {}
            Head::Function {
                place: _,
                inputs: _inputs,
                returns: _returns,
                mode: _,
            } => {}
        }
    }
}

/// A unit: `name: PROGRAM; DECLARE A INTEGER; A = 1; CLOSE name;`.
#[cycle(units)]
pub struct Unit {
    pub name: Identifier,
    pub head: Head,
    pub declarations: Vec<Declaration>,
    pub elements: Vec<Element>,
    pub close: Option<Identifier>,
}

impl Drop for Unit {
    #[cycle(units)]
    fn drop(self) {
        let Unit {
            name: _,
            head: _head,
            declarations: _declarations,
            elements: _elements,
            close: _,
        } = self;
    }
}

/// A statement or a unit, as they stand in a unit.
#[cycle(units)]
pub enum Element {
    Statement(Statement),
    Unit(Unit),
}

impl Drop for Element {
    #[cycle(units)]
    fn drop(self) {
        match self {
            Element::Statement(_statement) => {}
            Element::Unit(_unit) => {}
        }
    }
}

/// The template of a unit that another file holds: `name: EXTERNAL PROCEDURE(A); DECLARE A INTEGER; CLOSE;`.
pub struct Template {
    pub name: Identifier,
    pub head: Head,
    pub declarations: Vec<Declaration>,
    pub close: Option<Identifier>,
}

impl Drop for Template {
    fn drop(self) {
        let Template {
            name: _,
            head: _head,
            declarations: _declarations,
            close: _,
        } = self;
    }
}

/// What stands before a file's unit.
pub enum Preface {
    /// `INCLUDE name`
    Include { place: Place, name: Identifier },
    Template(Template),
}

impl Drop for Preface {
    fn drop(self) {
        match self {
            Preface::Include { place: _, name: _ } => {}
            Preface::Template(_template) => {}
        }
    }
}

/// A file.
pub struct File {
    pub prefaces: Vec<Preface>,
    pub unit: Unit,
}

impl Drop for File {
    fn drop(self) {
        let File {
            prefaces: _prefaces,
            unit: _unit,
        } = self;
    }
}
