//! What a name is used for.

/// What a name is used for.
#[derive(Clone, Copy, PartialEq, Eq)]
pub enum Usage {
    /// As an operand.
    Value,
    /// Takes a value.
    Receiver,
    /// As an ASSIGN argument.
    Output,
    /// As an operand of an event expression.
    EventOperand,
    /// As an operand behind UNTIL of SCHEDULE.
    EventOrTime,
    /// In the call form.
    CallForm,
    /// As a structure template.
    StructureType,
    /// As the variable of DO FOR.
    Variable,
    /// Behind CALL.
    Called,
    /// As a process, in a real-time statement.
    Process,
    /// Behind SIGNAL, SET or RESET.
    Event,
}
