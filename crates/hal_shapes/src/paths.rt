//! The part of a structure to which a path leads, and the parts below it.

ghost use Rattle.std.specs.Prelude.{◌≡◌, map};
ghost use Rattle.std.specs.Option.{option_map};
ghost use Rattle.hal_tree.specs.SeenDeclarations.{seen_part};
ghost use Rattle.hal_tree.specs.SeenLeaves.{seen_name};
ghost use Rattle.hal_shapes.specs.Paths as paths;

use hal_tree::{Identifier, Part};
use hal_words::Name;

/// Whether a part has this level and name.
#[tactic(auto, using(hal_tree::proofs::MadeDeclarations::made_part))]
fn is_named(level: u64, name: &Name, part: &Part) -> bool
    ensures { result ≡ paths.is_named level name.now (seen_part part.now) }
{
    u64::from(part.level) == level && part.name.name.bytes() == name.bytes()
}

/// The first of these parts with a level and a name, before one of a lower level, and the parts behind it.
#[tactic(auto, using(hal_tree::proofs::MadeDeclarations::made_part), unfolding(crate::specs::Paths::found))]
fn found<'a>(level: u64, name: &Name, parts: &'a [Part]) -> Option<(&'a Part, &'a [Part])>
    ensures { option_map (λ f. (seen_part f.0.now, map seen_part f.1.now)) result ≡ paths.found level name.now (map seen_part parts.now) }
{
    let mut rest = parts;
    while let Some((part, later)) = rest.split_first() {
        if u64::from(part.level) < level {
            return None;
        }
        if is_named(level, name, part) {
            return Some((part, later));
        }
        rest = later;
    }
    None
}

/// The part at the end of a path, and the parts behind it.
#[tactic(auto, using(hal_scope::proofs::Lists::nil_seen, hal_tree::proofs::MadeDeclarations::made_part), unfolding(crate::specs::Paths::reached))]
pub(crate) fn reached<'a>(parts: &'a [Part], path: &[Identifier]) -> Option<(&'a Part, &'a [Part])>
    ensures { option_map (λ f. (seen_part f.0.now, map seen_part f.1.now)) result ≡ paths.reached 1 (map seen_part parts.now) (map seen_name path.now) }
{
    let mut level: u64 = 1;
    let mut here = parts;
    let mut rest = path;
    while let Some((next, later)) = rest.split_first() {
        let (part, behind) = found(level, &next.name, here)?;
        if later.is_empty() {
            return Some((part, behind));
        }
        level = u64::from(part.level) + 1;
        here = behind;
        rest = later;
    }
    None
}
