//! The shapes of data that are passed as a whole.

ghost use Rattle.std.specs.Prelude.{◌≡◌, IfOk, OnOk, map, unwrap_or};
ghost use Rattle.hal_code.specs.Sorts.{same_kind};
ghost use Rattle.hal_storage.specs.elements.SeenComponents.{seen_component, seen_shape};
ghost use Rattle.hal_meaning.specs.Elements.{times};
ghost use Rattle.hal_runs.specs.Joined.{with_runs};
ghost use Rattle.hal_gen_expr.specs.Shapes as shapes;

use hal_code::Run;
use hal_runs::push_run;
use hal_storage::elements::{Component, Shape, count};
use hal_values::Kind;
use std::alloc::{AllocError, Global};

/// Adds the kinds of one copy of these components.
#[tactic(auto, unfolding(hal_runs::specs::Joined::with_runs))]
fn push_copy(into: &mut Vec<Run<Kind>>, components: &[Component]) -> Result<(), AllocError>
    ensures { OnOk result (into.new.items ≡ with_runs same_kind into.old.items (map shapes.run_of (map seen_component components.now))) }
{
    for component in components {
        let run = Run {
            repeat: count(component),
            row: component.kind,
        };
        push_run(into, run)?;
    }
    Ok(())
}

/// Adds those of so many copies.
#[tactic(auto, using(hal_runs::proofs::Expanded::runs_behind), unfolding(hal_runs::specs::Joined::with_runs))]
fn push_copies(
    into: &mut Vec<Run<Kind>>,
    components: &[Component],
    copies: u16,
) -> Result<(), AllocError>
    ensures { OnOk result (into.new.items ≡ with_runs same_kind into.old.items (times copies (map shapes.run_of (map seen_component components.now)))) }
{
    let mut left = copies;
    while let Some(fewer) = left.checked_sub(1) {
        push_copy(into, components)?;
        left = fewer;
    }
    Ok(())
}

/// How many copies data have, 1 where they have none.
fn copies_of(shape: &Shape) -> u16
    ensures { result ≡ unwrap_or (seen_shape shape.now).copies 1 }
{
    match shape.copies {
        None => 1,
        Some(count) => count,
    }
}

/// The kinds of the cells of data with this shape, in order (image document, Views).
pub fn runs_of(alloc: Global, shape: &Shape) -> Result<Vec<Run<Kind>>, AllocError>
    ensures { IfOk result (λ runs. runs.items ≡ shapes.runs_of (seen_shape shape.now)) }
{
    let mut runs = Vec::new(alloc);
    push_copies(&mut runs, &shape.components, copies_of(shape))?;
    Ok(runs)
}
