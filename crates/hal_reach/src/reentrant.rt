//! Whether blocks are REENTRANT.

ghost use Rattle.std.specs.Prelude.{◌≡◌};
ghost use Rattle.std.specs.Option.{option_map};
ghost use Rattle.hal_tree.specs.SeenUnits.{seen_head, seen_mode};
ghost use Rattle.hal_phrases.specs.SeenPhrases.{seen_node};
ghost use Rattle.hal_names.specs.SeenNames.{seen_names};
ghost use Rattle.hal_meaning.specs.Bodies as bodies;
ghost use Rattle.hal_meaning.specs.Places as places;

use hal_names::Names;
use hal_phrases::Node;
use hal_tree::{Head, Mode};

/// Whether this is REENTRANT.
fn says_reentrant(mode: &Option<Mode>) -> bool
    ensures { result ≡ bodies.says_reentrant (option_map seen_mode mode.now) }
{
    match mode {
        Some(Mode::Reentrant { place: _ }) => true,
        Some(Mode::Exclusive { place: _ }) => false,
        None => false,
    }
}

/// Whether a head is that of a REENTRANT block.
#[tactic(auto, using(hal_tree::proofs::MadeUnits::made_program, hal_tree::proofs::MadeUnits::made_compool, hal_tree::proofs::MadeUnits::made_task, hal_tree::proofs::MadeUnits::made_procedure, hal_tree::proofs::MadeUnits::made_function))]
fn is_reentrant_head(head: &Head) -> bool
    ensures { result ≡ bodies.is_reentrant_head (seen_head head.now) }
{
    match head {
        Head::Procedure { mode, .. } => says_reentrant(mode),
        Head::Function { mode, .. } => says_reentrant(mode),
        Head::Program { place: _ } => false,
        Head::Task { place: _ } => false,
        Head::Compool { place: _ } => false,
    }
}

/// Whether a phrase is the unit of a REENTRANT block (language document, Places).
pub fn is_reentrant(node: Node<'_>) -> bool
    ensures { result ≡ places.is_reentrant (seen_node node.entry) }
{
    match node {
        Node::Unit { head, .. } => is_reentrant_head(head),
        _ => false,
    }
}

/// Whether the phrase with this number is one.
pub fn is_reentrant_at(names: &Names<'_>, number: usize) -> bool
    ensures { result ≡ places.is_reentrant_at (seen_names names.now) number }
{
    match names.phrase(number) {
        None => false,
        Some(phrase) => is_reentrant(phrase.node),
    }
}
