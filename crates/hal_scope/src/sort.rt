//! What a name is the name of.

/// What a name is the name of, as far as naming rules ask.
#[derive(Clone, Copy, PartialEq, Eq)]
pub enum Sort {
    /// Data that isn't an event, parameters and TEMPORARY variables among them.
    Data,
    Event,
    Structure,
    Label,
    /// A PROGRAM or TASK.
    Process,
    Compool,
    Procedure,
    Function,
}
