//! How a phrase goes on behind another one.

/// What was read and the words behind it, where something was. Else the function ends: with `None` where nothing was read, with the error where memory was wanting.
/// It says in one match what `?` and `let .. else` say in two steps: those take twice as long to prove, since `?` is two calls at the whole type.
#[macro_export]
macro_rules! found {
    ($read:expr) => {
        match $read {
            Ok(Some(found)) => found,
            Ok(None) => return Ok(None),
            Err(error) => return Err(error),
        }
    };
}
