//! The rules of types over phrases.

ghost use Rattle.std.specs.Prelude.{◌≡◌, IfOk};
ghost use Rattle.hal_phrases.specs.SeenPhrases.{seen_phrase};
ghost use Rattle.hal_names.specs.SeenNames.{seen_names};
ghost use Rattle.hal_scope.specs.Rules as rules;
ghost use Rattle.hal_constants.specs.SeenKnown.{seen_known};
ghost use Rattle.hal_types.specs.Rules as table;
ghost use Rattle.hal_types.specs.Rules.{attribute_rows, operand_rows, use_rows};

use hal_attributes::{
    clashing, misleveled, misplaced_event, misstored, named_as_template, nested, no_result,
    overtyped, untyped,
};
use hal_base::Place;
use hal_base::rules::{
    CLASHING_ATTRIBUTES, DECIMAL_NOT_A_TIME, ERROR_OUT_OF_RANGE, EVENT_NOT_LATCHED,
    EXPONENT_NOT_A_LITERAL, MISPLACED_ATTRIBUTE, MISPLACED_EVENT, MISPLACED_RESULT, MISSING_TYPE,
    NESTED_TEMPLATE, NOT_A_PROCESS, SIZE_OUT_OF_RANGE, VARIABLE_NAMED_AS_TEMPLATE, WRONG_ARGUMENTS,
    WRONG_KIND_OF_OPERAND, WRONG_TYPE_OF_FUNCTION,
};
use hal_constants::Known;
use hal_initials::{misinitialed, missigned};
use hal_names::Names;
use hal_operands::{mismatched, mistimed, unfit, untaken, untimely};
use hal_phrases::{Node, Phrase};
use hal_scope::ruled;
use hal_shapes::{misranged, misshaped};
use hal_sizes::{inconstant, misdimensioned};
use hal_uses::{
    miscalled, misreceived, misreturned, missubscripted, no_error, no_exponent, no_process,
    unlatched,
};
use std::alloc::{AllocError, Global};

/// The first rule of attributes that a phrase breaks that is no expression or reference, and where.
#[tactic(auto, using(hal_scope::proofs::Lists::or_none), unfolding(hal_scope::specs::Rules::fault, crate::specs::Rules::attribute_rows))]
fn attribute_fault_of_other(names: &Names<'_>, phrase: &Phrase<'_>) -> Option<(u16, Place)>
    ensures { result ≡ rules.fault attribute_rows (seen_names names.now) (seen_phrase phrase.now) }
{
    let later = ruled(MISPLACED_ATTRIBUTE, misstored(names, phrase));
    let later = ruled(WRONG_TYPE_OF_FUNCTION, no_result(phrase.node)).or(later);
    let later = ruled(SIZE_OUT_OF_RANGE, misleveled(phrase.node)).or(later);
    let later = ruled(CLASHING_ATTRIBUTES, overtyped(phrase.node)).or(later);
    let later = ruled(CLASHING_ATTRIBUTES, clashing(phrase.node)).or(later);
    let later = ruled(MISPLACED_EVENT, misplaced_event(names, phrase)).or(later);
    let later = ruled(NESTED_TEMPLATE, nested(phrase.node)).or(later);
    let later = ruled(VARIABLE_NAMED_AS_TEMPLATE, named_as_template(phrase.node)).or(later);
    ruled(MISSING_TYPE, untyped(phrase.node)).or(later)
}

/// The first rule of attributes that a phrase breaks, and where. None is about expressions and references, which most phrases are.
#[tactic(auto, using(crate::proofs::Silent::expression_is_right, crate::proofs::Silent::reference_is_right))]
fn attribute_fault(names: &Names<'_>, phrase: &Phrase<'_>) -> Option<(u16, Place)>
    ensures { result ≡ rules.fault attribute_rows (seen_names names.now) (seen_phrase phrase.now) }
{
    match phrase.node {
        Node::Expression { role: _, tree: _ } => None,
        Node::Reference {
            role: _,
            reference: _,
        } => None,
        _ => attribute_fault_of_other(names, phrase),
    }
}

/// The first rule of operands that a phrase breaks, and where.
#[tactic(auto, using(hal_scope::proofs::Lists::or_none), unfolding(hal_scope::specs::Rules::fault, crate::specs::Rules::operand_rows))]
fn operand_fault(names: &Names<'_>, phrase: &Phrase<'_>) -> Option<(u16, Place)>
    ensures { result ≡ rules.fault operand_rows (seen_names names.now) (seen_phrase phrase.now) }
{
    let later = ruled(WRONG_KIND_OF_OPERAND, untaken(names, phrase));
    let later = mismatched(names, phrase).or(later);
    let later = unfit(names, phrase).or(later);
    let later = mistimed(names, phrase).or(later);
    ruled(DECIMAL_NOT_A_TIME, untimely(names, phrase)).or(later)
}

/// The first rule of how names are used that a phrase breaks, and where.
#[tactic(auto, using(hal_scope::proofs::Lists::or_none), unfolding(hal_scope::specs::Rules::fault, crate::specs::Rules::use_rows))]
fn use_fault(names: &Names<'_>, phrase: &Phrase<'_>) -> Option<(u16, Place)>
    ensures { result ≡ rules.fault use_rows (seen_names names.now) (seen_phrase phrase.now) }
{
    let later = miscalled(names, phrase);
    let later = missubscripted(names, phrase).or(later);
    let later = misreceived(names, phrase).or(later);
    let later = ruled(NOT_A_PROCESS, no_process(names, phrase)).or(later);
    let later = ruled(EVENT_NOT_LATCHED, unlatched(names, phrase)).or(later);
    let later = ruled(ERROR_OUT_OF_RANGE, no_error(phrase.node)).or(later);
    let later = ruled(MISPLACED_RESULT, misreturned(names, phrase)).or(later);
    ruled(EXPONENT_NOT_A_LITERAL, no_exponent(phrase.node)).or(later)
}

/// The first rule of types that a phrase breaks, the values of constants aside.
fn plain_fault(names: &Names<'_>, phrase: &Phrase<'_>) -> Option<(u16, Place)>
    ensures { result ≡ table.plain_fault (seen_names names.now) (seen_phrase phrase.now) }
{
    let later = operand_fault(names, phrase).or(use_fault(names, phrase));
    attribute_fault(names, phrase).or(later)
}

/// The first rule of sizes, ranges and arguments that a phrase breaks, and where.
fn size_fault(names: &Names<'_>, known: &Known, phrase: &Phrase<'_>) -> Option<(u16, Place)>
    ensures { result ≡ table.sized_plainly (seen_names names.now) (seen_known known.now) (seen_phrase phrase.now) }
{
    let later = ruled(WRONG_KIND_OF_OPERAND, missigned(names, phrase));
    let later = ruled(WRONG_ARGUMENTS, misshaped(names, known, phrase)).or(later);
    let later = misranged(names, known, phrase).or(later);
    let later = ruled(SIZE_OUT_OF_RANGE, misdimensioned(phrase.node)).or(later);
    inconstant(names, known, phrase).or(later)
}

/// The first rule of types that a phrase breaks, and where.
fn fault(
    alloc: Global,
    names: &Names<'_>,
    known: &Known,
    phrase: &Phrase<'_>,
) -> Result<Option<(u16, Place)>, AllocError>
    ensures { IfOk result (λ found. found ≡ table.fault_with (seen_names names.now) (seen_known known.now) (seen_phrase phrase.now)) }
{
    let found = plain_fault(names, phrase).or(size_fault(names, known, phrase));
    if found.is_some() {
        return Ok(found);
    }
    misinitialed(alloc, names, known, phrase)
}

/// The first rule of types that one of the phrases breaks, and where.
#[tactic(auto, unfolding(crate::specs::Rules::first_with))]
pub(crate) fn first_fault(
    alloc: Global,
    names: &Names<'_>,
    known: &Known,
) -> Result<Option<(u16, Place)>, AllocError>
    ensures { IfOk result (λ found. found ≡ table.first_with (seen_names names.now) (seen_known known.now) (seen_names names.now)) }
{
    let phrases = names.phrases();
    for phrase in phrases {
        let found = fault(alloc, names, known, phrase)?;
        if found.is_some() {
            return Ok(found);
        }
    }
    Ok(None)
}
