//! The declared events of a set of files, and how they begin.

mod declared;
mod starts;

pub use declared::declared_events;
pub use starts::event_starts;
