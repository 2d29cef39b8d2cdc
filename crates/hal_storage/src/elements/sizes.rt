//! The sizes that constants give.

ghost use Rattle.std.specs.Prelude.{◌≡◌, IfOk, map};
ghost use Rattle.std.specs.Option.{option_map};
ghost use Rattle.hal_tree.specs.Rows.{expressions};
ghost use Rattle.hal_tree.specs.SeenExpressions.{seen_expression};
ghost use Rattle.hal_phrases.specs.SeenPhrases.{seen_phrase};
ghost use Rattle.hal_names.specs.SeenNames.{seen_names};
ghost use Rattle.hal_constants.specs.SeenKnown.{seen_known};
ghost use Rattle.hal_meaning.specs.Elements as elements;

use hal_base::SIZE_LIMIT;
use hal_constants::{Known, constant_of, size_of};
use hal_names::Names;
use hal_phrases::Phrase;
use hal_tree::Expr;
use std::alloc::{AllocError, Global};

/// The size, or the number of copies, that a constant expression gives, 1 where it gives none.
pub(crate) fn size_given(names: &Names<'_>, known: &Known, phrase: &Phrase<'_>, size: &Expr) -> u16
    ensures { result ≡ elements.size_given (seen_names names.now) (seen_known known.now) (seen_phrase phrase.now) (seen_expression size.now) }
{
    size_of(SIZE_LIMIT, &constant_of(size, names, known, phrase)).unwrap_or(1)
}

/// The sizes that a list gives.
#[tactic(auto, unfolding(hal_tree::specs::Rows::expressions))]
fn all_sizes(
    alloc: Global,
    names: &Names<'_>,
    known: &Known,
    phrase: &Phrase<'_>,
    list: &[Expr],
) -> Result<Vec<u16>, AllocError>
    ensures { IfOk result (λ sizes. sizes.items ≡ elements.all_sizes (seen_names names.now) (seen_known known.now) (seen_phrase phrase.now) (expressions (map seen_expression list.now))) }
{
    let mut sizes = Vec::new(alloc);
    for size in list {
        sizes.push(size_given(names, known, phrase, size))?;
    }
    Ok(sizes)
}

/// The same of a list that may be there.
pub(crate) fn sizes_given(
    alloc: Global,
    names: &Names<'_>,
    known: &Known,
    phrase: &Phrase<'_>,
    list: Option<&[Expr]>,
) -> Result<Vec<u16>, AllocError>
    ensures { IfOk result (λ sizes. sizes.items ≡ elements.sizes_given (seen_names names.now) (seen_known known.now) (seen_phrase phrase.now) (option_map (λ list. expressions (map seen_expression list.now)) list.entry)) }
{
    match list {
        None => Ok(Vec::new(alloc)),
        Some(list) => all_sizes(alloc, names, known, phrase, list),
    }
}
