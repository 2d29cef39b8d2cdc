//! Reads a text of so many bytes, as the second word says, 1000 where there is none, so many times as the
//! third word says, once where there is none; of the kind that the fourth word names, or of each kind.
//! It prints how many words the text has. bench/words.py times it.

mod texts;

use crate::asked::{is_asked, number};
use hal_lexer::tokens;
use std::alloc::Global;
use std::io;
use texts::KINDS;

/// How many words the text has; 0 where it breaks a rule.
fn count_of(alloc: Global, text: &[u8]) -> usize {
    match tokens(alloc, text, 0) {
        Ok(tokens) => tokens.as_slice().len(),
        Err(_) => 0,
    }
}

pub(crate) fn run(rt: &HostRuntime, words: &[String]) -> io::Result<()> {
    let size = number(words, 1, 1_000);
    let times = number(words, 2, 1);
    for kind in KINDS {
        let name = kind.name();
        if is_asked(words, 3, name) {
            let text = kind.text(rt.alloc(), size)?;
            let mut count = 0usize;
            for _ in 0..times {
                count = count.saturating_add(count_of(rt.alloc(), text.as_slice()));
            }
            let bytes = text.len();
            println!(rt; "{name} {bytes} bytes {count} words")?;
        }
    }
    Ok(())
}
