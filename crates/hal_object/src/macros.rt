//! What is made of what is read.

/// What is made of what was read, and the bytes behind it; or the fault. It says in one match what `?` says in two calls, each of which would be proved.
#[macro_export]
macro_rules! made {
    ($read:expr, $make:path) => {
        match $read {
            Ok((operand, rest)) => Ok(($make(operand), rest)),
            Err(fault) => Err(fault),
        }
    };
}
