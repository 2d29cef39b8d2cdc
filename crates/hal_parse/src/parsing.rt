//! The file that words are.

ghost use Rattle.std.specs.Prelude.{IfErr, IfNone, IfOk, IfSome};
ghost use Rattle.hal_grammar.specs.Units as grammar;
ghost use Rattle.hal_tree.specs.SeenUnits.{seen_file};
ghost use Rattle.hal_parse.specs.Parsed.{IsFileOf, IsParsed, Refuses};
ghost use Rattle.hal_parse.specs.Stuck.{IsStuckAt};

use crate::files::read_file;
use crate::stuck::{place_of, stuck_in_file};
use hal_base::rules::SYNTAX_ERROR;
use hal_base::{Fault, NESTING_LIMIT, Refusal, Rule};
use hal_tree::File;
use hal_words::Token;
use std::alloc::{AllocError, Global};

/// The one file of these words, the words of unit number `unit`; or rule 401 where they are those of no file that is nested at most 64 deep; or want of
/// memory. The place is that of the first word of the declaration, statement or unit that can't be read. See docs/LANGUAGE.md, "The grammar of the whole
/// language".
pub fn parse(alloc: Global, words: &[Token], unit: u32) -> Result<File, Fault>
    ensures parsed { IfOk result (λ file. IsParsed words.now (seen_file file)) }
    ensures broken { IfErr result (Refuses unit words.now) }
    ensures place { IfErr result (IsStuckAt unit words.now) }
{
    match whole_file(alloc, words) {
        Ok(Some(file)) => Ok(file),
        Ok(None) => Err(unread(alloc, words, unit)),
        Err(error) => Err(Fault::Memory(error)),
    }
}

/// The file of these words, if they are those of one.
#[tactic(auto, using(crate::proofs::Answered::no_file), unfolding(hal_parse_expr::specs::Seen::seen_as))]
fn whole_file(alloc: Global, words: &[Token]) -> Result<Option<File>, AllocError>
    ensures parsed { IfOk result (λ found. IfSome found (λ file. IsParsed words.now (seen_file file))) }
    ensures none { IfOk result (λ found. IfNone found ((file : grammar.File) → IsFileOf words.now file → ⊥)) }
{
    let Some((file, rest)) = read_file(alloc, words, NESTING_LIMIT)? else {
        return Ok(None);
    };
    if rest.is_empty() {
        Ok(Some(file))
    } else {
        Ok(None)
    }
}

/// Why the words are those of no file.
#[tactic(auto, using(crate::proofs::Answered::stuck_stands))]
fn unread(alloc: Global, words: &[Token], unit: u32) -> Fault
    requires { (file : grammar.File) → IsFileOf words.now file → ⊥ }
    ensures broken { Refuses unit words.now result }
    ensures place { IsStuckAt unit words.now result }
{
    match stuck_in_file(alloc, words, NESTING_LIMIT) {
        Ok(rest) => Fault::Broken(Refusal {
            rule: Rule(SYNTAX_ERROR),
            place: place_of(words, rest.len(), unit),
        }),
        Err(error) => Fault::Memory(error),
    }
}
