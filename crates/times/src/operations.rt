//! Does so many rounds of an operation as the second word says, 1000 where there is none, and prints what
//! they come to: of the kind that the third word names, or of each kind. bench/operations.py times it.

mod rounds;

use crate::asked::is_asked;
use rounds::KINDS;
use std::io;

/// How many rounds are done where no word says it.
const ROUNDS: u32 = 1_000;

/// The number of rounds, which the second word says.
fn asked_rounds(words: &[String]) -> u32 {
    match words.get(1) {
        None => ROUNDS,
        Some(word) => word.parse::<u32>().unwrap_or(ROUNDS),
    }
}

pub(crate) fn run(rt: &HostRuntime, words: &[String]) -> io::Result<()> {
    let rounds = asked_rounds(words);
    for kind in KINDS {
        let name = kind.name();
        if is_asked(words, 2, name) {
            let end = kind.run(rounds);
            println!(rt; "{rounds} {name} {end}")?;
        }
    }
    Ok(())
}
