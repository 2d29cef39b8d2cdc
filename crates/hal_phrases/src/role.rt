//! What an expression is for.

ghost use Rattle.std.specs.Prelude.{◌≡◌};
ghost use Rattle.hal_phrases.specs.Roles as roles;
ghost use Rattle.hal_tree.specs.SeenLeaves.{seen_conversion};

use hal_tree::Conversion;

/// What an expression or a reference is for, where it stands.
#[derive(Clone, Copy, PartialEq, Eq)]
pub enum Role {
    /// Beside OR.
    Disjunct,
    /// Beside AND.
    Conjunct,
    /// Of a comparison.
    Compared,
    /// Beside CAT.
    Joined,
    /// Of a sum.
    Summand,
    /// Of a product.
    Factor,
    /// Raised to a power.
    Base,
    /// The power.
    Exponent,
    /// Behind NOT.
    Negated,
    /// Of the call form.
    Argument,
    /// In INTEGER(..).
    ToInteger,
    /// In BIT(..).
    ToBits,
    /// In CHARACTER(..).
    ToText,
    /// In parentheses.
    Enclosed,
    /// Tells a copy of a structure.
    CopySubscript,
    /// Tells a place of an array.
    ArraySubscript,
    /// Tells a place of a text or of bits.
    ComponentSubscript,
    /// Takes a value by assignment or READ.
    Receiver,
    /// What is assigned.
    Assigned,
    /// Of IF, or of WHILE or UNTIL of a loop.
    Condition,
    /// Of DO CASE.
    Case,
    /// A value of the variable of DO FOR, or its step.
    Bound,
    /// Of RETURN.
    Returned,
    /// An input argument of CALL.
    Input,
    /// An ASSIGN argument of CALL.
    Output,
    /// Of READ or WRITE.
    Channel,
    /// Written by WRITE.
    Item,
    /// A time.
    Time,
    /// A priority.
    Priority,
    /// An event expression, or a part of one under AND, OR, NOT or parentheses.
    Event,
    /// Behind UNTIL of SCHEDULE: an event expression or a time; or a part of it under AND, OR, NOT or parentheses.
    EventOrTime,
    /// A dimension of an array.
    Dimension,
    /// The number of copies of a structure.
    Copies,
    /// The length of BIT.
    BitLength,
    /// The length of CHARACTER.
    TextLength,
    /// A lock group.
    LockGroup,
    /// An initial value.
    Initial,
}

impl Role {
    /// The role of what stands under AND, OR, NOT or in parentheses, whose own role would be this: an event expression goes on below them.
    pub(crate) fn under(self, own: Role) -> Role
        ensures { result ≡ roles.under self own }
    {
        match self {
            Role::Event => Role::Event,
            Role::EventOrTime => Role::EventOrTime,
            _ => own,
        }
    }

    /// The role of the operand of a conversion.
    pub(crate) fn of(conversion: Conversion) -> Role
        ensures { result ≡ roles.of_conversion (seen_conversion conversion) }
    {
        match conversion {
            Conversion::Integer => Role::ToInteger,
            Conversion::Bit => Role::ToBits,
            Conversion::Character => Role::ToText,
        }
    }
}
