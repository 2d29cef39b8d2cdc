//! Whether STATIC data directly in a unit are shared.

ghost use Rattle.std.specs.Prelude.{◌≡◌};
ghost use Rattle.std.specs.Option.{option_map};
ghost use Rattle.hal_tree.specs.SeenUnits.{seen_head, seen_mode};
ghost use Rattle.hal_names.specs.SeenNames.{seen_names};
ghost use Rattle.hal_meaning.specs.Bodies as bodies;
ghost use Rattle.hal_meaning.specs.Places as places;

use hal_names::Names;
use hal_phrases::Node;
use hal_tree::{Head, Mode};

/// Whether a head says REENTRANT.
fn says_reentrant(mode: &Option<Mode>) -> bool
    ensures { result ≡ bodies.says_reentrant (option_map seen_mode mode.now) }
{
    match mode {
        Some(Mode::Reentrant { place: _ }) => true,
        Some(Mode::Exclusive { place: _ }) => false,
        None => false,
    }
}

/// Whether STATIC data directly in a unit with this number and head are shared.
#[tactic(auto, using(hal_tree::proofs::MadeUnits::made_program, hal_tree::proofs::MadeUnits::made_compool, hal_tree::proofs::MadeUnits::made_task, hal_tree::proofs::MadeUnits::made_procedure, hal_tree::proofs::MadeUnits::made_function))]
fn shares(names: &Names<'_>, unit: usize, head: &Head) -> bool
    ensures { result ≡ places.shares (seen_names names.now) unit (seen_head head.now) }
{
    match head {
        Head::Compool { place: _ } => true,
        Head::Program { place: _ } => names.has_task(unit),
        Head::Task { place: _ } => false,
        Head::Procedure { mode, .. } => says_reentrant(mode),
        Head::Function { mode, .. } => says_reentrant(mode),
    }
}

/// Whether STATIC data directly in the unit with this number are shared.
pub(crate) fn home_shares(names: &Names<'_>, unit: usize) -> bool
    ensures { result ≡ places.home_shares (seen_names names.now) unit }
{
    let Some(phrase) = names.phrase(unit) else {
        return false;
    };
    match phrase.node {
        Node::Unit { head, .. } => shares(names, unit, head),
        _ => false,
    }
}
