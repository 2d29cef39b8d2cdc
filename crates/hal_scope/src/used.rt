//! A name that is used.

use crate::usage::Usage;
use hal_base::Place;
use hal_words::Name;

/// A name that is used, where, and what for.
#[derive(Clone, Copy)]
pub struct Use {
    pub place: Place,
    pub name: Name,
    pub usage: Usage,
}
