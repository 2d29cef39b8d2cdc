//! Expressions. A node's place is that of its first word.

use crate::kept_literal::KeptLiteral;
use crate::leaf::{Conversion, Identifier, Relation, Sign};
use hal_base::Place;
use hal_words::Name;

/// An expression. Of the nodes with `others` a node has one at least, a sum with an opening sign excepted.
#[cycle(tree)]
pub enum Expr {
    /// `first OR other OR other`
    Or {
        place: Place,
        first: Box<Expr>,
        others: Vec<Expr>,
    },
    /// `first AND other AND other`
    And {
        place: Place,
        first: Box<Expr>,
        others: Vec<Expr>,
    },
    /// `left = right`
    Compare {
        place: Place,
        left: Box<Expr>,
        relation: Relation,
        right: Box<Expr>,
    },
    /// `first CAT other CAT other`
    Cat {
        place: Place,
        first: Box<Expr>,
        others: Vec<Expr>,
    },
    /// `-first + other - other`
    Sum {
        place: Place,
        opening: Option<Sign>,
        first: Box<Expr>,
        others: Vec<SignedTerm>,
    },
    /// `first other other`
    Product {
        place: Place,
        first: Box<Expr>,
        others: Vec<Expr>,
    },
    /// `base ** exponent`
    Power {
        place: Place,
        base: Box<Expr>,
        exponent: Box<Expr>,
    },
    /// `NOT operand`
    Not {
        place: Place,
        operand: Box<Expr>,
    },
    Literal {
        place: Place,
        literal: KeptLiteral,
    },
    /// A number with a point, in thousandths.
    Decimal {
        place: Place,
        thousandths: u64,
    },
    /// `A`, `A.B`, `A$(1)`
    Reference(Reference),
    /// `name(argument, argument)`, of one argument at least.
    Call {
        place: Place,
        name: Name,
        arguments: Vec<Expr>,
    },
    /// `INTEGER(operand)`
    Convert {
        place: Place,
        conversion: Conversion,
        operand: Box<Expr>,
    },
    /// `(inner)`
    Parenthesis {
        place: Place,
        inner: Box<Expr>,
    },
}

impl Drop for Expr {
    #[cycle(tree)]
    fn drop(self) {
        match self {
            Expr::Or {
                place: _,
                first: _first,
                others: _others,
            } => {}
            Expr::And {
                place: _,
                first: _first,
                others: _others,
            } => {}
            Expr::Compare {
                place: _,
                left: _left,
                relation: _,
                right: _right,
            } => {}
            Expr::Cat {
                place: _,
                first: _first,
                others: _others,
            } => {}
            Expr::Sum {
                place: _,
                opening: _,
                first: _first,
                others: _others,
            } => {}
            Expr::Product {
                place: _,
                first: _first,
                others: _others,
            } => {}
            Expr::Power {
                place: _,
                base: _base,
                exponent: _exponent,
            } => {}
            Expr::Not {
                place: _,
                operand: _operand,
            } => {}
            Expr::Literal {
                place: _,
                literal: _literal,
            } => {}
            Expr::Decimal {
                place: _,
                thousandths: _,
            } => {}
            Expr::Reference(_reference) => {}
            Expr::Call {
                place: _,
                name: _,
                arguments: _arguments,
            } => {}
            Expr::Convert {
                place: _,
                conversion: _,
                operand: _operand,
            } => {}
            Expr::Parenthesis {
                place: _,
                inner: _inner,
            } => {}
        }
    }
}

/// A term of a sum with the sign before it.
#[derive(Drop)]
#[cycle(tree)]
pub struct SignedTerm {
    /// The sign's place.
    pub place: Place,
    pub sign: Sign,
    pub term: Expr,
}

/// `name.further.further$subscript`
#[cycle(tree)]
pub struct Reference {
    pub place: Place,
    pub name: Name,
    pub further: Vec<Identifier>,
    pub subscript: Subscript,
}

impl Drop for Reference {
    #[cycle(tree)]
    fn drop(self) {
        let Reference {
            place: _,
            name: _,
            further: _further,
            subscript: _subscript,
        } = self;
    }
}

/// A subscript. Its place is that of `$`.
#[cycle(tree)]
pub enum Subscript {
    None,
    /// `$name`
    Name {
        place: Place,
        name: Identifier,
    },
    /// `$1`
    Integer {
        place: Place,
        at: Place,
        number: u32,
    },
    /// `$(copies; arrays: components)`; a part that is left out is empty.
    Parts {
        place: Place,
        copies: Vec<Sub>,
        arrays: Vec<Sub>,
        components: Vec<Sub>,
    },
}

impl Drop for Subscript {
    #[cycle(tree)]
    fn drop(self) {
        match self {
            Subscript::None => {}
            Subscript::Name { place: _, name: _ } => {}
            Subscript::Integer {
                place: _,
                at: _,
                number: _,
            } => {}
            Subscript::Parts {
                place: _,
                copies: _copies,
                arrays: _arrays,
                components: _components,
            } => {}
        }
    }
}

/// One subscript of a part.
#[cycle(tree)]
pub enum Sub {
    /// `*`
    Every { place: Place },
    One { position: Position },
    /// `first TO last`
    Range { first: Position, last: Position },
    /// `count AT first`
    Portion { count: Expr, first: Position },
}

impl Drop for Sub {
    #[cycle(tree)]
    fn drop(self) {
        match self {
            Sub::Every { place: _ } => {}
            Sub::One {
                position: _position,
            } => {}
            Sub::Range {
                first: _first,
                last: _last,
            } => {}
            Sub::Portion {
                count: _count,
                first: _first,
            } => {}
        }
    }
}

/// A place in an array, a structure's copies or a component.
#[derive(Drop)]
#[cycle(tree)]
pub enum Position {
    FromBeginning {
        position: Expr,
    },
    /// `# - 1`
    FromEnd {
        place: Place,
        terms: Vec<SignedTerm>,
    },
}

impl Expr {
    ghost use Rattle.std.specs.Prelude.{◌≡◌};
    ghost use Rattle.hal_grammar.specs.Expressions.{place_of};
    ghost use Rattle.hal_tree.specs.SeenExpressions.{seen_expression};

    /// The place of the first word.
    #[tactic(auto, using(crate::proofs::MadeExpressions::made_or, crate::proofs::MadeExpressions::made_and, crate::proofs::MadeExpressions::made_compare, crate::proofs::MadeExpressions::made_cat, crate::proofs::MadeExpressions::made_sum, crate::proofs::MadeExpressions::made_product, crate::proofs::MadeExpressions::made_power, crate::proofs::MadeExpressions::made_not, crate::proofs::MadeExpressions::made_literal, crate::proofs::MadeExpressions::made_decimal, crate::proofs::MadeExpressions::made_referred, crate::proofs::MadeExpressions::made_reference, crate::proofs::MadeExpressions::made_call, crate::proofs::MadeExpressions::made_convert, crate::proofs::MadeExpressions::made_parenthesis))]
    pub fn place(&self) -> Place
        ensures { result ≡ place_of (seen_expression self.now) }
    {
        match self {
            Expr::Or { place, .. } => *place,
            Expr::And { place, .. } => *place,
            Expr::Compare { place, .. } => *place,
            Expr::Cat { place, .. } => *place,
            Expr::Sum { place, .. } => *place,
            Expr::Product { place, .. } => *place,
            Expr::Power { place, .. } => *place,
            Expr::Not { place, .. } => *place,
            Expr::Literal { place, .. } => *place,
            Expr::Decimal { place, .. } => *place,
            Expr::Reference(reference) => reference.place,
            Expr::Call { place, .. } => *place,
            Expr::Convert { place, .. } => *place,
            Expr::Parenthesis { place, .. } => *place,
        }
    }
}
