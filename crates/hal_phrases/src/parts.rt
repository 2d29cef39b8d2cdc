//! The phrases of the parts of a structure.

ghost use Rattle.std.specs.Prelude.{◌≡◌, ◌++◌, ◌∷◌, map, [], IfOk, OnOk};
ghost use Rattle.hal_tree.specs.SeenDeclarations.{seen_part};
ghost use Rattle.hal_phrases.specs.GatheredDeclarations.{gathered_part, gathered_parts, innermost, is_bottom, still_open};
ghost use Rattle.hal_phrases.specs.SeenPhrases.{seen_phrase};

use crate::around::Around;
use crate::declarations::gather_attributes;
use crate::node::{Node, Phrase, below, next_number, push};
use hal_tree::Part;
use std::alloc::{AllocError, Global};

/// A part that is open: its level and its number.
type OpenPart = (u32, usize);

/// Those of the open parts that have a lower level than this one.
#[tactic(auto, unfolding(crate::specs::GatheredDeclarations::still_open))]
fn still_open(alloc: Global, level: u32, unclosed: &[OpenPart]) -> Result<Vec<OpenPart>, AllocError>
    ensures { IfOk result (λ still. still.items ≡ still_open level unclosed.now) }
{
    let mut still = Vec::new(alloc);
    for part in unclosed {
        if part.0 < level {
            still.push(*part)?;
        }
    }
    Ok(still)
}

/// These open parts and one of this level and number.
fn with_part(
    mut still: Vec<OpenPart>,
    level: u32,
    number: usize,
) -> Result<Vec<OpenPart>, AllocError>
    ensures { IfOk result (λ all. all.items ≡ still.items ++ ((level, number) ∷ [])) }
{
    still.push((level, number))?;
    Ok(still)
}

/// The number of the last open part, or this one where there is none.
#[tactic(auto, unfolding(crate::specs::GatheredDeclarations::innermost))]
fn innermost(number: usize, unclosed: &[OpenPart]) -> usize
    ensures { result ≡ innermost number unclosed.now }
{
    let mut innermost = number;
    for part in unclosed {
        innermost = part.1;
    }
    innermost
}

/// Whether no part of a deeper level follows.
#[tactic(auto, using(hal_tree::proofs::MadeDeclarations::made_part), unfolding(crate::specs::GatheredDeclarations::is_bottom))]
fn is_bottom(level: u32, rest: &[Part]) -> bool
    ensures { result ≡ is_bottom level (map seen_part rest.now) }
{
    match rest {
        [] => true,
        [next, ..] => next.level <= level,
    }
}

/// Adds a part and its phrases.
#[tactic(auto, using(hal_tree::proofs::MadeDeclarations::made_part), unfolding(crate::specs::GatheredDeclarations::gathered_part))]
fn gather_part<'a>(
    into: &mut Vec<Phrase<'a>>,
    around: Around,
    bottom: bool,
    part: &'a Part,
) -> Result<(), AllocError>
    ensures { OnOk result (map seen_phrase into.new.items ≡ gathered_part around bottom (map seen_phrase into.old.items) (seen_part part.now)) }
{
    let below = below(into, around);
    push(into, around, Node::Part { bottom, part })?;
    gather_attributes(into, below, &part.attributes)
}

/// Adds the parts of a structure and their phrases.
#[tactic(auto, using(hal_tree::proofs::MadeDeclarations::made_part), unfolding(crate::specs::GatheredDeclarations::gathered_parts))]
pub(crate) fn gather_parts<'a>(
    alloc: Global,
    into: &mut Vec<Phrase<'a>>,
    around: Around,
    parts: &'a [Part],
) -> Result<(), AllocError>
    ensures { OnOk result (map seen_phrase into.new.items ≡ gathered_parts around [] (map seen_phrase into.old.items) (map seen_part parts.now)) }
{
    let mut unclosed = Vec::new(alloc);
    let mut rest = parts;
    while let Some((part, behind)) = rest.split_first() {
        let still = still_open(alloc, part.level, &unclosed)?;
        let inner = around.under(innermost(around.parent, &still));
        unclosed = with_part(still, part.level, next_number(into))?;
        gather_part(into, inner, is_bottom(part.level, behind), part)?;
        rest = behind;
    }
    Ok(())
}
