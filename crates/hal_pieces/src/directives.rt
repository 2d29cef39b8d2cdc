ghost use Rattle.std.specs.Prelude.{◌≡◌, ◌+◌, ◌^◌, ◌<◌, length, Option, List, [], ◌∷◌, ◌++◌, map, IfOk, IfErr};
ghost use Rattle.hal_base.specs.declared.refusal.Place.{Place};
ghost use Rattle.hal_words.specs.Lines.{directive_cells, include_cells, item};
ghost use Rattle.hal_words.specs.Letters.{capital};
ghost use Rattle.hal_words.specs.Pieces.{Is};
ghost use Rattle.hal_pieces.specs.declared.directives.Directive.TheVariants as directive;
ghost use Rattle.hal_pieces.specs.Directives.{cells_of, included_cells};
ghost use Rattle.hal_pieces.specs.Faults.{IsMemory, seen_item};
ghost use Rattle.hal_pieces.specs.Reading.{Reads, TellsOf};

use crate::item::{Item, RightPiece, broken};
use crate::names::{
    behind_blanks, behind_run, blanks, is_namelike, is_word, run_bytes, short_name,
};
use hal_base::rules::{MALFORMED_INCLUDE, NAME_TOO_LONG};
use hal_base::{Fault, Place};
use hal_words::{Name, Reserved, Word};
use std::alloc::AllocError;

/// What a directive gives.
#[derive(Clone, Copy)]
pub enum Directive {
    /// Nothing.
    Other,
    /// The word INCLUDE and a name.
    Include { begin: Place, at: Place, name: Name },
    /// The same with a name above 32 bytes.
    LongName { begin: Place, at: Place },
    /// An INCLUDE directive that isn't written as it has to be.
    Wrong { begin: Place },
}

/// Puts the items of a directive after the others, of which the text is what stands from column 2 on.
pub fn push_directive<'a>(items: &mut Vec<Item<'a>>, text: &[u8], start: Place) -> Result<(), Fault>
    requires first { start.column ≡ 1 }
    ensures read { IfOk result (λ _. (comment : Option Place) → Reads (directive_cells start.unit start.line text.now) []
        comment comment (map seen_item items.old.items) (map seen_item items.new.items)) }
    ensures broken { IfErr result (λ fault. (comment : Option Place) → TellsOf (directive_cells start.unit start.line text.now) comment (map seen_item items.old.items) fault) }
{
    match directive_at(text, start) {
        Directive::Other => Ok(()),
        Directive::Include { begin, at, name } => push_include(items, begin, at, name),
        Directive::LongName { begin: _, at } => Err(broken(NAME_TOO_LONG, at)),
        Directive::Wrong { begin } => Err(broken(MALFORMED_INCLUDE, begin)),
    }
}

/// Puts the word INCLUDE and a name after the others.
fn push_include<'a>(
    items: &mut Vec<Item<'a>>,
    begin: Place,
    at: Place,
    name: Name,
) -> Result<(), Fault>
    ensures read { IfOk result (λ _. (comment : Option Place) → Reads (cells_of (directive.Include begin at name)) []
        comment comment (map seen_item items.old.items) (map seen_item items.new.items)) }
    ensures memory { IfErr result IsMemory }
{
    push_given(items, Word::Reserved(Reserved::Include), begin)?;
    push_given(items, Word::Name(name), at)
}

/// Puts a word after the others.
fn push_given<'a>(items: &mut Vec<Item<'a>>, word: Word, place: Place) -> Result<(), Fault>
    ensures pushed { IfOk result (λ _. map seen_item items.new.items ≡ map seen_item items.old.items ++ item (Is word) place ∷ []) }
    ensures memory { IfErr result IsMemory }
{
    let piece = RightPiece::Word(word);
    if items.push(Item { piece, place }).is_err() {
        return Err(Fault::Memory(AllocError));
    }
    Ok(())
}

/// What the text of a directive gives, which is what stands from column 2 on.
fn directive_at(text: &[u8], start: Place) -> Directive
    requires first { start.column ≡ 1 }
    ensures { directive_cells start.unit start.line text.now ≡ cells_of result }
{
    let column = 2 + blanks(text) as u64;
    let front = behind_blanks(text);
    if !is_word(run_bytes(front), "INCLUDE") {
        return Directive::Other;
    }
    include_at(behind_run(front), Place { column, ..start })
}

/// What follows the word INCLUDE, which begins at this place.
fn include_at(text: &[u8], begin: Place) -> Directive
    requires fits { begin.column + length text.now + 15 < 2 ^ 64 }
    ensures { include_cells begin.unit begin.line begin.column text.now ≡ cells_of result }
{
    let front = behind_blanks(text);
    let behind = behind_run(front);
    let last = behind_blanks(behind);
    let name = run_bytes(last);
    let rest = behind_blanks(behind_run(last));
    if is_word(run_bytes(front), "TEMPLATE") && is_namelike(name) && rest.is_empty() {
        let column = begin.column + 15 + blanks(text) as u64 + blanks(behind) as u64;
        included(begin, Place { column, ..begin }, name)
    } else {
        Directive::Wrong {
            begin: Place { column: 1, ..begin },
        }
    }
}

/// An INCLUDE directive with the run of a name.
fn included(begin: Place, at: Place, run: &[u8]) -> Directive
    ensures { included_cells begin at (map capital run.now) ≡ cells_of result }
{
    match short_name(run) {
        Some(name) => Directive::Include { begin, at, name },
        None => Directive::LongName { begin, at },
    }
}
