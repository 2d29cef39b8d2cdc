ghost use Rattle.std.specs.Prelude.{IfOk, IfErr};
ghost use Rattle.hal_words.specs.Words.{IsCut};
ghost use Rattle.hal_lexer.specs.Faults.{BreaksBy};

use crate::file_words::words;
use crate::token_list::Tokens;
use hal_base::Fault;
use hal_pieces::items;
use std::alloc::Global;

/// The words of unit number `unit` with their places, lines and columns counted from 1, or a rule of
/// words that is broken, at its place, or want of memory. See docs/LANGUAGE.md, "The words of the whole
/// language".
pub fn tokens(alloc: Global, text: &[u8], unit: u32) -> Result<Tokens, Fault>
    ensures cut { IfOk result (IsCut unit text.now) }
    ensures broken { IfErr result (BreaksBy unit text.now) }
{
    let items = items(alloc, text, unit)?;
    words(alloc, items.as_slice())
}
