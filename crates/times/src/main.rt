//! Does one thing many times, for the benches: the first word says what, `words`, `units`, `operations` or `steps`, and a module of that name says what its further words
//! are. Without a word each of them is done with the numbers that it has where no word says them.
#![tactic(auto)]

mod asked;
mod operations;
mod steps;
mod units;
mod words;

use std::{env, io};

fn main(rt: HostRuntime) -> io::Result<()> {
    let asked: Vec<String> = env::args(&rt)?.skip(1).collect(rt.alloc())?;
    let asked = asked.as_slice();
    let is_any = asked.is_empty();
    if is_any || asked::is_first(asked, "words") {
        words::run(&rt, asked)?;
    }
    if is_any || asked::is_first(asked, "units") {
        units::run(&rt, asked)?;
    }
    if is_any || asked::is_first(asked, "operations") {
        operations::run(&rt, asked)?;
    }
    if is_any || asked::is_first(asked, "steps") {
        steps::run(&rt, asked)?;
    }
    Ok(())
}
