//! The bodies of units.

ghost use Rattle.std.specs.Prelude.{◌≡◌, map};
ghost use Rattle.std.specs.Option.{option_map};
ghost use Rattle.hal_storage.specs.sets.SeenBodies.{seen_body};
ghost use Rattle.hal_gen_expr.specs.Bodies as bodies;
ghost use Rattle.hal_gen_expr.specs.SeenSites.{seen_site};
ghost use Rattle.hal_meaning.specs.Sets.{body_at};

use crate::site::Site;
use hal_storage::sets::Body;

/// The first of these bodies whose unit has this number.
#[tactic(auto, unfolding(crate::specs::Bodies::found_in))]
fn body_in<'a, 'b>(list: &'b [Body<'a>], unit: usize) -> Option<&'b Body<'a>>
    ensures { option_map bodies.lent_body result ≡ bodies.found_in unit (map seen_body list.now) }
{
    for body in list {
        if body.number == unit {
            return Some(body);
        }
    }
    None
}

/// The body of the unit with this number (language document, Units).
#[tactic(auto, using(crate::proofs::FoundBodies::body_found), unfolding(crate::specs::SeenSites::seen_site))]
pub fn body_at<'a>(site: &Site<'a>, unit: usize) -> Option<&'a Body<'a>>
    ensures { option_map bodies.lent_body result ≡ body_at (seen_site site.now).set unit }
{
    body_in(&site.set.bodies, unit)
}
