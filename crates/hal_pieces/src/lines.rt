ghost use Rattle.std.specs.Prelude.{◌≡◌, ◌≢◌, ◌+◌, ◌^◌, ◌<◌, ◌≤◌, ℕ, List, [], false, length, drop, map, All, IfOk, IfErr, Some, None};
ghost use Rattle.hal_words.specs.Letters.{is_blank};
ghost use Rattle.hal_words.specs.Numbers.{begins};
ghost use Rattle.hal_words.specs.Lines as definition;
ghost use Rattle.hal_words.specs.Lines.{line_cells, main_cells};
ghost use Rattle.hal_words.specs.Items.{begins_comment};
ghost use Rattle.hal_pieces.specs.declared.kinds.Kind.TheVariants as kind;
ghost use Rattle.hal_pieces.specs.Kinds.{kind_of};
ghost use Rattle.hal_pieces.specs.Faults.{seen_item};
ghost use Rattle.hal_pieces.specs.Reading.{Reads, TellsOf};

use crate::comments::comment_end;
use crate::directives::push_directive;
use crate::item::{Item, broken, right_piece};
use crate::kinds::{Kind, line_kind};
use crate::replacements::piece_behind;
use hal_base::rules::{EXPONENT_OR_SUBSCRIPT_LINE, UNKNOWN_KIND_OF_LINE};
use hal_base::{Fault, Place};
use std::alloc::AllocError;

/// What was read at the front of a line's rest: how many bytes, and where the comment began that goes
/// on behind them.
#[derive(Clone, Copy)]
struct Step {
    size: usize,
    comment: Option<Place>,
}

/// Puts the items of a line after the others. The result is where the comment began that goes on
/// behind the line.
pub fn push_line<'a>(
    items: &mut Vec<Item<'a>>,
    line: &'a [u8],
    start: Place,
    comment: Option<Place>,
) -> Result<Option<Place>, Fault>
    requires first { start.column ≡ 1 }
    requires plain { All (λ b. b ≢ 10) line.now }
    ensures read { IfOk result (λ after. Reads (line_cells start.unit start.line line.now) []
        comment after (map seen_item items.old.items) (map seen_item items.new.items)) }
    ensures broken { IfErr result (TellsOf (line_cells start.unit start.line line.now) comment (map seen_item items.old.items)) }
{
    match line_kind(line) {
        Kind::Comment => Ok(comment),
        Kind::Directive => {
            push_directive(items, line.split_at(1).1, start)?;
            Ok(comment)
        }
        Kind::Main => push_main_line(items, line, start, comment),
        Kind::Script => Err(broken(EXPONENT_OR_SUBSCRIPT_LINE, start)),
        Kind::Other => Err(broken(UNKNOWN_KIND_OF_LINE, start)),
    }
}

/// Puts the items of a main line after the others.
fn push_main_line<'a>(
    items: &mut Vec<Item<'a>>,
    line: &'a [u8],
    start: Place,
    comment: Option<Place>,
) -> Result<Option<Place>, Fault>
    requires first { start.column ≡ 1 }
    requires plain { All (λ b. b ≢ 10) line.now }
    requires main { kind_of line.now ≡ kind.Main }
    ensures read { IfOk result (λ after. Reads (line_cells start.unit start.line line.now) []
        comment after (map seen_item items.old.items) (map seen_item items.new.items)) }
    ensures broken { IfErr result (TellsOf (line_cells start.unit start.line line.now) comment (map seen_item items.old.items)) }
{
    if line.is_empty() {
        push_main(items, line, start, comment)
    } else {
        push_main(
            items,
            line.split_at(1).1,
            Place { column: 2, ..start },
            comment,
        )
    }
}

/// Puts the items of a main line's rest after the others. The result is where the comment began that
/// goes on behind the line.
fn push_main<'a>(
    items: &mut Vec<Item<'a>>,
    text: &'a [u8],
    from: Place,
    comment: Option<Place>,
) -> Result<Option<Place>, Fault>
    requires fits { from.column + length text.now < 2 ^ 64 }
    requires plain { All (λ b. b ≢ 10) text.now }
    ensures read { IfOk result (λ after. Reads (main_cells from.unit from.line from.column text.now) []
        comment after (map seen_item items.old.items) (map seen_item items.new.items)) }
    ensures broken { IfErr result (TellsOf (main_cells from.unit from.line from.column text.now) comment (map seen_item items.old.items)) }
{
    let mut rest = text;
    let mut column = from.column;
    let mut comment = comment;
    while !rest.is_empty() {
        let step = push_front(items, rest, Place { column, ..from }, comment)?;
        rest = rest.split_at(step.size).1;
        column += step.size as u64;
        comment = step.comment;
    }
    Ok(comment)
}

/// Reads the front of a main line's rest, in a comment that began at a place or between words.
fn push_front<'a>(
    items: &mut Vec<Item<'a>>,
    text: &'a [u8],
    place: Place,
    comment: Option<Place>,
) -> Result<Step, Fault>
    requires some { 0 < length text.now }
    requires plain { All (λ b. b ≢ 10) text.now }
    ensures within { IfOk result (λ step. (1 ≤ step.size) × (step.size ≤ length text.now)) }
    ensures read { IfOk result (λ step. Reads (main_cells place.unit place.line place.column text.now)
        (main_cells place.unit place.line (place.column + step.size) (drop step.size text.now))
        comment step.comment (map seen_item items.old.items) (map seen_item items.new.items)) }
    ensures broken { IfErr result (TellsOf (main_cells place.unit place.line place.column text.now) comment (map seen_item items.old.items)) }
{
    match comment {
        None => push_word(items, text, place),
        Some(start) => Ok(past_comment(text, start)),
    }
}

/// How far a comment goes on a line.
fn past_comment(text: &[u8], start: Place) -> Step
    requires some { 0 < length text.now }
    ensures within { (1 ≤ result.size) × (result.size ≤ length text.now) }
    ensures read { (unit line column : ℕ) (items : List definition.Item)
        → Reads (main_cells unit line column text.now) (main_cells unit line (column + result.size) (drop result.size text.now))
        (Some start) result.comment items items }
{
    match comment_end(text) {
        Some(size) => Step {
            size,
            comment: None,
        },
        None => Step {
            size: text.len(),
            comment: Some(start),
        },
    }
}

/// Reads a blank, the first two bytes of a comment, or a word.
fn push_word<'a>(items: &mut Vec<Item<'a>>, text: &'a [u8], place: Place) -> Result<Step, Fault>
    requires some { 0 < length text.now }
    requires plain { All (λ b. b ≢ 10) text.now }
    ensures within { IfOk result (λ step. (1 ≤ step.size) × (step.size ≤ length text.now)) }
    ensures read { IfOk result (λ step. Reads (main_cells place.unit place.line place.column text.now)
        (main_cells place.unit place.line (place.column + step.size) (drop step.size text.now))
        None step.comment (map seen_item items.old.items) (map seen_item items.new.items)) }
    ensures broken { IfErr result (TellsOf (main_cells place.unit place.line place.column text.now) None (map seen_item items.old.items)) }
{
    match text {
        [b' ' | b'\t', ..] => Ok(Step {
            size: 1,
            comment: None,
        }),
        [b'/', b'*', ..] => Ok(Step {
            size: 2,
            comment: Some(place),
        }),
        _ => Ok(Step {
            size: push_piece(items, text, place)?,
            comment: None,
        }),
    }
}

/// Puts the piece that the text begins with after the others. The result is how many bytes it takes.
fn push_piece<'a>(items: &mut Vec<Item<'a>>, text: &'a [u8], place: Place) -> Result<usize, Fault>
    requires some { 0 < length text.now }
    requires plain { All (λ b. b ≢ 10) text.now }
    requires no_blank { begins is_blank text.now ≡ false }
    requires no_comment { begins_comment text.now ≡ false }
    ensures within { IfOk result (λ size. (1 ≤ size) × (size ≤ length text.now)) }
    ensures read { IfOk result (λ size. Reads (main_cells place.unit place.line place.column text.now)
        (main_cells place.unit place.line (place.column + size) (drop size text.now))
        None None (map seen_item items.old.items) (map seen_item items.new.items)) }
    ensures broken { IfErr result (TellsOf (main_cells place.unit place.line place.column text.now) None (map seen_item items.old.items)) }
{
    let (piece, size) = piece_behind(items.as_slice(), text);
    let piece = right_piece(*items.allocator(), &piece, place)?;
    if items.push(Item { piece, place }).is_err() {
        return Err(Fault::Memory(AllocError));
    }
    Ok(size)
}
