//! The code of statements: which instructions stand for each of them, with their targets, and that they do.
#![tactic(auto)]

mod calls;
mod channels;
mod errors;
mod events;
mod exits;
mod groups;
mod kept;
mod laws;
mod locks;
mod loops;
mod marks;
mod real_time;
mod receivers;
mod returns;
mod schedules;
mod sites;
mod sizes;
mod statements;
mod times;

pub use exits::{Exits, Leaving, Opened};
pub use laws::the_code_of_statements_stands_for_them;
pub use locks::Locks;
pub use marks::after_statement;
pub use sites::within_block;
pub use sizes::statement_size;
pub use statements::emit_direct;
