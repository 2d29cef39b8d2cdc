//! Whether a template has the head of its unit.

ghost use Rattle.std.specs.Prelude.{◌≡◌, map};
ghost use Rattle.std.specs.Option.{option_map};
ghost use Rattle.hal_tree.specs.SeenDeclarations.{seen_type};
ghost use Rattle.hal_tree.specs.SeenLeaves.{seen_name};
ghost use Rattle.hal_tree.specs.SeenUnits.{seen_head, seen_mode, seen_precision, seen_returns};
ghost use Rattle.hal_phrases.specs.SeenPhrases.{seen_phrase};
ghost use Rattle.hal_names.specs.SeenNames.{seen_names};
ghost use Rattle.hal_constants.specs.SeenKnown.{seen_known};
ghost use Rattle.hal_templates.specs.Heads as heads;

use crate::alike::{both_or_neither, may_be_kind, same_template};
use crate::own::template_of;
use hal_constants::{Known, kind_of};
use hal_kinds::is_event_type;
use hal_names::Names;
use hal_phrases::{Around, Phrase};
use hal_tree::{Head, Identifier, Mode, Precision, Returns, Type};

/// Names in order.
#[tactic(auto, unfolding(crate::specs::Heads::same_names))]
fn same_names(one: &[Identifier], other: &[Identifier]) -> bool
    ensures { result ≡ heads.same_names (map seen_name one.now) (map seen_name other.now) }
{
    let mut left = one;
    let mut right = other;
    while let Some((name, later)) = left.split_first() {
        let Some((same, behind)) = right.split_first() else {
            return false;
        };
        if name.name.bytes() != same.name.bytes() {
            return false;
        }
        left = later;
        right = behind;
    }
    right.is_empty()
}

/// REENTRANT, EXCLUSIVE or neither.
#[tactic(auto, unfolding(crate::specs::Heads::same_mode))]
fn same_mode(one: Option<Mode>, other: Option<Mode>) -> bool
    ensures { result ≡ heads.same_mode (option_map seen_mode one) (option_map seen_mode other) }
{
    match (one, other) {
        (None, None) => true,
        (Some(Mode::Reentrant { place: _ }), Some(Mode::Reentrant { place: _ })) => true,
        (Some(Mode::Exclusive { place: _ }), Some(Mode::Exclusive { place: _ })) => true,
        _ => false,
    }
}

/// SINGLE is what nothing says.
#[tactic(auto, unfolding(crate::specs::Heads::is_double))]
fn is_double(precision: Option<Precision>) -> bool
    ensures { result ≡ heads.is_double (option_map seen_precision precision) }
{
    match precision {
        Some(Precision::Double { place: _ }) => true,
        _ => false,
    }
}

/// A phrase as its own parts see it.
fn within<'a>(phrase: &Phrase<'a>) -> Phrase<'a>
    ensures { seen_phrase result ≡ heads.within (seen_phrase phrase.now) }
{
    Phrase {
        number: phrase.number,
        around: Around {
            parent: phrase.number,
            block: phrase.number,
            home: phrase.number,
            prefaces: phrase.around.prefaces,
            group: None,
            update: None,
            direct: true,
        },
        node: phrase.node,
    }
}

/// The types of the results of two FUNCTIONs.
fn same_result(
    names: &Names<'_>,
    known: &Known,
    one: &Phrase<'_>,
    kind: &Type,
    precision: Option<Precision>,
    two: &Phrase<'_>,
    other: &Type,
    other_precision: Option<Precision>,
) -> bool
    ensures { result ≡ heads.same_result (seen_names names.now) (seen_known known.now) (seen_phrase one.now) (seen_type kind.now) (option_map seen_precision precision) (seen_phrase two.now) (seen_type other.now) (option_map seen_precision other_precision) }
{
    both_or_neither(is_event_type(Some(kind)), is_event_type(Some(other)))
        && (same_template(template_of(Some(kind)), template_of(Some(other)))
            && may_be_kind(
                kind_of(names, known, &within(one), is_double(precision), kind),
                kind_of(
                    names,
                    known,
                    &within(two),
                    is_double(other_precision),
                    other,
                ),
            ))
}

/// No type.
#[tactic(auto, using(hal_tree::proofs::MadeUnits::made_untyped, hal_tree::proofs::MadeUnits::made_typed_returns), unfolding(crate::specs::Heads::is_untyped))]
fn is_untyped(returns: &Returns) -> bool
    ensures { result ≡ heads.is_untyped (seen_returns returns.now) }
{
    match returns {
        Returns::Untyped => true,
        Returns::Typed { .. } => false,
    }
}

/// The result of a FUNCTION with a type, and what another one says of its result.
#[tactic(auto, using(hal_tree::proofs::MadeUnits::made_untyped, hal_tree::proofs::MadeUnits::made_typed_returns), unfolding(crate::specs::Heads::result_like))]
fn result_like(
    names: &Names<'_>,
    known: &Known,
    one: &Phrase<'_>,
    kind: &Type,
    precision: Option<Precision>,
    two: &Phrase<'_>,
    returns: &Returns,
) -> bool
    ensures { result ≡ heads.result_like (seen_names names.now) (seen_known known.now) (seen_phrase one.now) (seen_type kind.now) (option_map seen_precision precision) (seen_phrase two.now) (seen_returns returns.now) }
{
    match returns {
        Returns::Untyped => false,
        Returns::Typed {
            kind: other,
            precision: other_precision,
        } => same_result(
            names,
            known,
            one,
            kind,
            precision,
            two,
            other,
            *other_precision,
        ),
    }
}

/// What two FUNCTIONs say of their results.
#[tactic(auto, using(hal_tree::proofs::MadeUnits::made_untyped, hal_tree::proofs::MadeUnits::made_typed_returns), unfolding(crate::specs::Heads::same_returns))]
fn same_returns(
    names: &Names<'_>,
    known: &Known,
    one: &Phrase<'_>,
    returns: &Returns,
    two: &Phrase<'_>,
    other: &Returns,
) -> bool
    ensures { result ≡ heads.same_returns (seen_names names.now) (seen_known known.now) (seen_phrase one.now) (seen_returns returns.now) (seen_phrase two.now) (seen_returns other.now) }
{
    match returns {
        Returns::Untyped => is_untyped(other),
        Returns::Typed { kind, precision } => {
            result_like(names, known, one, kind, *precision, two, other)
        }
    }
}

#[tactic(auto, using(hal_tree::proofs::MadeUnits::made_program, hal_tree::proofs::MadeUnits::made_compool, hal_tree::proofs::MadeUnits::made_task, hal_tree::proofs::MadeUnits::made_procedure, hal_tree::proofs::MadeUnits::made_function), unfolding(crate::specs::Heads::is_program))]
fn is_program(head: &Head) -> bool
    ensures { result ≡ heads.is_program (seen_head head.now) }
{
    match head {
        Head::Program { place: _ } => true,
        Head::Compool { place: _ } => false,
        Head::Task { place: _ } => false,
        Head::Procedure { .. } => false,
        Head::Function { .. } => false,
    }
}

#[tactic(auto, using(hal_tree::proofs::MadeUnits::made_program, hal_tree::proofs::MadeUnits::made_compool, hal_tree::proofs::MadeUnits::made_task, hal_tree::proofs::MadeUnits::made_procedure, hal_tree::proofs::MadeUnits::made_function), unfolding(crate::specs::Heads::is_compool))]
pub(crate) fn is_compool(head: &Head) -> bool
    ensures { result ≡ heads.is_compool (seen_head head.now) }
{
    match head {
        Head::Compool { place: _ } => true,
        Head::Program { place: _ } => false,
        Head::Task { place: _ } => false,
        Head::Procedure { .. } => false,
        Head::Function { .. } => false,
    }
}

#[tactic(auto, using(hal_tree::proofs::MadeUnits::made_program, hal_tree::proofs::MadeUnits::made_compool, hal_tree::proofs::MadeUnits::made_task, hal_tree::proofs::MadeUnits::made_procedure, hal_tree::proofs::MadeUnits::made_function), unfolding(crate::specs::Heads::is_task))]
fn is_task(head: &Head) -> bool
    ensures { result ≡ heads.is_task (seen_head head.now) }
{
    match head {
        Head::Task { place: _ } => true,
        Head::Program { place: _ } => false,
        Head::Compool { place: _ } => false,
        Head::Procedure { .. } => false,
        Head::Function { .. } => false,
    }
}

/// A PROCEDURE with these parameters and this mode.
#[tactic(auto, using(hal_tree::proofs::MadeUnits::made_program, hal_tree::proofs::MadeUnits::made_compool, hal_tree::proofs::MadeUnits::made_task, hal_tree::proofs::MadeUnits::made_procedure, hal_tree::proofs::MadeUnits::made_function), unfolding(crate::specs::Heads::is_procedure))]
fn is_procedure(
    inputs: &[Identifier],
    outputs: &[Identifier],
    mode: Option<Mode>,
    head: &Head,
) -> bool
    ensures { result ≡ heads.is_procedure (map seen_name inputs.now) (map seen_name outputs.now) (option_map seen_mode mode) (seen_head head.now) }
{
    match head {
        Head::Procedure {
            place: _,
            inputs: other_inputs,
            outputs: other_outputs,
            mode: other_mode,
        } => {
            same_names(inputs, other_inputs)
                && (same_names(outputs, other_outputs) && same_mode(mode, *other_mode))
        }
        Head::Program { place: _ } => false,
        Head::Compool { place: _ } => false,
        Head::Task { place: _ } => false,
        Head::Function { .. } => false,
    }
}

/// A FUNCTION with these parameters, this type and this mode.
#[tactic(auto, using(hal_tree::proofs::MadeUnits::made_program, hal_tree::proofs::MadeUnits::made_compool, hal_tree::proofs::MadeUnits::made_task, hal_tree::proofs::MadeUnits::made_procedure, hal_tree::proofs::MadeUnits::made_function), unfolding(crate::specs::Heads::is_function))]
fn is_function(
    names: &Names<'_>,
    known: &Known,
    one: &Phrase<'_>,
    inputs: &[Identifier],
    returns: &Returns,
    mode: Option<Mode>,
    two: &Phrase<'_>,
    head: &Head,
) -> bool
    ensures { result ≡ heads.is_function (seen_names names.now) (seen_known known.now) (seen_phrase one.now) (map seen_name inputs.now) (seen_returns returns.now) (option_map seen_mode mode) (seen_phrase two.now) (seen_head head.now) }
{
    match head {
        Head::Function {
            place: _,
            inputs: other_inputs,
            returns: other_returns,
            mode: other_mode,
        } => {
            same_names(inputs, other_inputs)
                && (same_returns(names, known, one, returns, two, other_returns)
                    && same_mode(mode, *other_mode))
        }
        Head::Program { place: _ } => false,
        Head::Compool { place: _ } => false,
        Head::Task { place: _ } => false,
        Head::Procedure { .. } => false,
    }
}

/// The head of a template, and that of a unit (language document, Templates).
#[tactic(auto, using(hal_tree::proofs::MadeUnits::made_program, hal_tree::proofs::MadeUnits::made_compool, hal_tree::proofs::MadeUnits::made_task, hal_tree::proofs::MadeUnits::made_procedure, hal_tree::proofs::MadeUnits::made_function), unfolding(crate::specs::Heads::same_head))]
pub(crate) fn same_head(
    names: &Names<'_>,
    known: &Known,
    one: &Phrase<'_>,
    head: &Head,
    two: &Phrase<'_>,
    other: &Head,
) -> bool
    ensures { result ≡ heads.same_head (seen_names names.now) (seen_known known.now) (seen_phrase one.now) (seen_head head.now) (seen_phrase two.now) (seen_head other.now) }
{
    match head {
        Head::Program { place: _ } => is_program(other),
        Head::Compool { place: _ } => is_compool(other),
        Head::Task { place: _ } => is_task(other),
        Head::Procedure {
            place: _,
            inputs,
            outputs,
            mode,
        } => is_procedure(inputs, outputs, *mode, other),
        Head::Function {
            place: _,
            inputs,
            returns,
            mode,
        } => is_function(names, known, one, inputs, returns, *mode, two, other),
    }
}
