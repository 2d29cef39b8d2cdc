//! Where control goes from inside statements.

ghost use Rattle.std.specs.Prelude.{◌≡◌, IfOk, map};
ghost use Rattle.std.specs.Option.{option_map};
ghost use Rattle.hal_tree.specs.SeenLeaves.{seen_name};
ghost use Rattle.hal_agreement.specs.PlacedStatements as placed;
ghost use Rattle.hal_meaning.specs.Statements as meaning;
ghost use Rattle.hal_gen.specs.BlockExits as blocks;
ghost use Rattle.hal_gen.specs.Leading as leading;
ghost use Rattle.hal_gen.specs.SeenExits.{seen_exits, seen_leaving, seen_opened};

use hal_tree::Identifier;
use hal_words::Name;
use std::alloc::{AllocError, Global};

/// A group that is open where a statement stands. Places are the numbers of instructions.
#[derive(Clone, Copy)]
pub struct Opened<'a> {
    pub labels: &'a [Identifier],
    /// Where EXIT leads.
    pub exit: usize,
    /// Where REPEAT leads, of a loop.
    pub again: Option<usize>,
}

/// How RETURN leaves the block in which a statement stands (language document, Units).
#[derive(Clone, Copy)]
pub enum Leaving {
    /// A process goes on to its FINISH, which stands there.
    ToFinish(usize),
    /// A PROCEDURE goes back.
    ByReturn,
    /// A FUNCTION goes back with a value.
    ByResult,
    /// An UPDATE block has no RETURN.
    NoReturn,
}

/// Where control goes from inside statements.
#[derive(Drop)]
pub struct Exits<'a> {
    /// The groups that are open around them, the innermost first.
    pub groups: Vec<Opened<'a>>,
    pub leaving: Leaving,
}

impl<'a> Exits<'a> {
    /// Those of the statements of a block's body, around which no group is open.
    pub fn of_body(alloc: Global, leaving: Leaving) -> Exits<'a>
        ensures { seen_exits result ≡ blocks.of_body (seen_leaving leaving) }
    {
        Exits {
            groups: Vec::new(alloc),
            leaving,
        }
    }

    /// Those of the statements of a group.
    pub fn within(&self, alloc: Global, group: Opened<'a>) -> Result<Exits<'a>, AllocError>
        ensures { IfOk result (λ inner. seen_exits inner ≡ placed.within_group (seen_opened group.entry) (seen_exits self.now)) }
    {
        let mut groups = Vec::new(alloc);
        groups.push(group)?;
        groups.extend_from_slice(&self.groups)?;
        Ok(Exits {
            groups,
            leaving: self.leaving,
        })
    }
}

/// Whether a name is one of these labels.
fn is_label(labels: &[Identifier], name: &Name) -> bool
    ensures { result ≡ meaning.is_label (map seen_name labels.now) name.now }
{
    for label in labels {
        if label.name.bytes() == name.bytes() {
            return true;
        }
    }
    false
}

/// Whether EXIT or REPEAT with this label or without one is meant for a group with these labels.
fn is_meant(labels: &[Identifier], label: &Option<Identifier>) -> bool
    ensures { result ≡ meaning.is_meant (map seen_name labels.now) (meaning.label_name (option_map seen_name label.now)) }
{
    match label {
        None => true,
        Some(label) => is_label(labels, &label.name),
    }
}

/// Where EXIT leads (language document, Statements).
pub(crate) fn exit_of(groups: &[Opened<'_>], label: &Option<Identifier>) -> Option<usize>
    ensures { result ≡ placed.exit_of (map seen_opened groups.now) (meaning.label_name (option_map seen_name label.now)) }
{
    for group in groups {
        if is_meant(group.labels, label) {
            return Some(group.exit);
        }
    }
    None
}

/// Where REPEAT leads of a group, if the group is a loop for which it is meant.
fn turn_of(group: &Opened<'_>, label: &Option<Identifier>) -> Option<usize>
    ensures { result ≡ leading.turn_of (seen_opened group.now) (meaning.label_name (option_map seen_name label.now)) }
{
    let again = group.again?;
    if is_meant(group.labels, label) {
        Some(again)
    } else {
        None
    }
}

/// Where REPEAT leads: it passes over groups that are no loops (language document, Statements).
#[tactic(auto, using(crate::proofs::Led::turn_first))]
pub(crate) fn again_of(groups: &[Opened<'_>], label: &Option<Identifier>) -> Option<usize>
    ensures { result ≡ placed.again_of (map seen_opened groups.now) (meaning.label_name (option_map seen_name label.now)) }
{
    for group in groups {
        if let Some(again) = turn_of(group, label) {
            return Some(again);
        }
    }
    None
}
