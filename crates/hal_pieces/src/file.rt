ghost use Rattle.std.specs.Prelude.{◌≡◌, [], Option, None, map, IfOk, IfErr};
ghost use Rattle.hal_words.specs.Lines.{file_cells};
ghost use Rattle.hal_words.specs.Items.{file_items};
ghost use Rattle.hal_pieces.specs.Faults.{HasNoFault, Tells, seen_item};
ghost use Rattle.hal_pieces.specs.Reading.{Reads, TellsOf};

use crate::item::Item;
use crate::lines::push_line;
use hal_base::rules::UNENDED_LITERAL_OR_COMMENT;
use hal_base::{Fault, Place, Refusal, Rule, first_line};
use std::alloc::Global;

/// How many bytes of a file give an item, about. By this there is room for the items from the first, and they are seldom moved.
const BYTES_OF_AN_ITEM: usize = 4;

/// The items of unit number `unit`, or a rule that is broken at its place.
pub fn items<'a>(alloc: Global, text: &'a [u8], unit: u32) -> Result<Vec<Item<'a>>, Fault>
    ensures found { IfOk result (λ found. map seen_item found.items ≡ file_items unit text.now) }
    ensures whole { IfOk result (λ found. HasNoFault (file_items unit text.now)) }
    ensures broken { IfErr result (Tells (file_items unit text.now)) }
{
    let mut items = Vec::with_capacity(alloc, text.len() / BYTES_OF_AN_ITEM).map_err(
        Fault::Memory,
    )?;
    let comment = push_lines(&mut items, text, unit)?;
    match comment {
        None => Ok(items),
        Some(place) => Err(Fault::Broken(Refusal {
            rule: Rule(UNENDED_LITERAL_OR_COMMENT),
            place,
        })),
    }
}

/// Puts the items of the text's lines after the others. The result is where the comment began that is
/// open at the end.
fn push_lines<'a>(
    items: &mut Vec<Item<'a>>,
    text: &'a [u8],
    unit: u32,
) -> Result<Option<Place>, Fault>
    ensures read { IfOk result (λ after. Reads (file_cells unit text.now) []
        None after (map seen_item items.old.items) (map seen_item items.new.items)) }
    ensures broken { IfErr result (TellsOf (file_cells unit text.now) None (map seen_item items.old.items)) }
{
    let mut comment = None;
    let mut rest = text;
    let mut number = 1;
    while let Some((line, more)) = first_line(rest) {
        let start = Place {
            unit,
            line: number,
            column: 1,
        };
        comment = push_line(items, line, start, comment)?;
        rest = more;
        number += 1;
    }
    Ok(comment)
}
