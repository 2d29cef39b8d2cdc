//! Declarations. A node's place is that of its first word.

use crate::expression::Expr;
use crate::leaf::{Identifier, LiteralValue, Sign};
use hal_base::Place;
use hal_words::Name;

/// An attribute of one word: SINGLE, DOUBLE, LATCHED, STATIC, AUTOMATIC, DENSE, ALIGNED.
#[derive(Clone, Copy, PartialEq, Eq)]
pub enum Mark {
    Single,
    Double,
    Latched,
    Static,
    Automatic,
    Dense,
    Aligned,
}

/// A type.
pub enum Type {
    /// `INTEGER`
    Integer {
        place: Place,
    },
    /// `BOOLEAN`
    Boolean {
        place: Place,
    },
    /// `EVENT`
    Event {
        place: Place,
    },
    /// `BIT(size)`
    Bit {
        place: Place,
        size: Expr,
    },
    /// `CHARACTER(size)`
    Character {
        place: Place,
        size: Expr,
    },
    /// `template-STRUCTURE(copies)`
    Structure {
        place: Place,
        template: Name,
        copies: Option<Expr>,
    },
}

impl Drop for Type {
    fn drop(self) {
        match self {
            Type::Integer { place: _ } => {}
            Type::Boolean { place: _ } => {}
            Type::Event { place: _ } => {}
            Type::Bit {
                place: _,
                size: _size,
            } => {}
            Type::Character {
                place: _,
                size: _size,
            } => {}
            Type::Structure {
                place: _,
                template: _,
                copies: _copies,
            } => {}
        }
    }
}

/// An initial value, or a count and what it repeats. The place is that of the count.
#[cycle(initials)]
pub enum Initial {
    Value {
        value: Expr,
    },
    /// `3#-1`; `at` is the literal's place.
    LiteralTimes {
        place: Place,
        count: u32,
        sign: Option<Sign>,
        at: Place,
        literal: LiteralValue,
    },
    /// `3#-A`
    NameTimes {
        place: Place,
        count: u32,
        sign: Option<Sign>,
        name: Identifier,
    },
    /// `3#(1, 2)`
    ListTimes {
        place: Place,
        count: u32,
        values: Vec<Initial>,
    },
}

impl Drop for Initial {
    #[cycle(initials)]
    fn drop(self) {
        match self {
            Initial::Value { value: _value } => {}
            Initial::LiteralTimes {
                place: _,
                count: _,
                sign: _,
                at: _,
                literal: _,
            } => {}
            Initial::NameTimes {
                place: _,
                count: _,
                sign: _,
                name: _,
            } => {}
            Initial::ListTimes {
                place: _,
                count: _,
                values: _values,
            } => {}
        }
    }
}

/// An attribute of what is declared.
pub enum Attribute {
    /// `ARRAY(2, 3)`
    Dimensions { place: Place, sizes: Vec<Expr> },
    Typed(Type),
    /// `SINGLE`
    Marked { place: Place, mark: Mark },
    /// `LOCK(1)`
    LockGroup { place: Place, group: Expr },
    /// `LOCK(*)`
    LockAny { place: Place },
    /// `INITIAL(1, 2)`
    Initial { place: Place, values: Vec<Initial> },
    /// `CONSTANT(1, 2)`
    Constant { place: Place, values: Vec<Initial> },
}

impl Drop for Attribute {
    fn drop(self) {
        match self {
            Attribute::Dimensions {
                place: _,
                sizes: _sizes,
            } => {}
            Attribute::Typed(_type) => {}
            Attribute::Marked { place: _, mark: _ } => {}
            Attribute::LockGroup {
                place: _,
                group: _group,
            } => {}
            Attribute::LockAny { place: _ } => {}
            Attribute::Initial {
                place: _,
                values: _values,
            } => {}
            Attribute::Constant {
                place: _,
                values: _values,
            } => {}
        }
    }
}

/// A name that is declared, and its attributes: the `A INTEGER` of `DECLARE A INTEGER;`.
pub struct Declared {
    pub name: Identifier,
    pub attributes: Vec<Attribute>,
}

impl Drop for Declared {
    fn drop(self) {
        let Declared {
            name: _,
            attributes: _attributes,
        } = self;
    }
}

/// A part of a structure: the `1 A INTEGER` of `STRUCTURE S: 1 A INTEGER;`. The place is that of its level.
pub struct Part {
    pub place: Place,
    pub level: u32,
    pub name: Identifier,
    pub attributes: Vec<Attribute>,
}

impl Drop for Part {
    fn drop(self) {
        let Part {
            place: _,
            level: _,
            name: _,
            attributes: _attributes,
        } = self;
    }
}

/// A declaration.
pub enum Declaration {
    /// `DECLARE INTEGER, A, B DOUBLE;`; `common` are the attributes before the first comma.
    Declare {
        place: Place,
        common: Vec<Attribute>,
        items: Vec<Declared>,
    },
    /// `STRUCTURE name: 1 A INTEGER, 1 B;`
    Structure {
        place: Place,
        name: Identifier,
        parts: Vec<Part>,
    },
}

impl Drop for Declaration {
    fn drop(self) {
        match self {
            Declaration::Declare {
                place: _,
                common: _common,
                items: _items,
            } => {}
            Declaration::Structure {
                place: _,
                name: _,
                parts: _parts,
            } => {}
        }
    }
}
