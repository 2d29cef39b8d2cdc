//! Where the phrases of a group stand.

ghost use Rattle.std.specs.Prelude.{◌≡◌};
ghost use Rattle.hal_agreement.specs.Sites as sites;
ghost use Rattle.hal_gen_expr.specs.SeenSites.{seen_site, seen_numbering, IsSite};

use hal_gen_expr::Site;

/// The same where names are looked up in the block with this number.
#[tactic(auto, unfolding(hal_gen_expr::specs::SeenSites::seen_site, hal_gen_expr::specs::SeenSites::seen_numbering))]
pub fn within_block<'a>(site: &Site<'a>, block: usize) -> Site<'a>
    requires site { IsSite site.now }
    ensures site { IsSite result }
    ensures seen { seen_site result ≡ sites.within_block block (seen_site site.now) }
    ensures numbering { seen_numbering result ≡ seen_numbering site.now }
    ensures shapes { result.shapes.now ≡ site.now.shapes.now }
{
    Site { block, ..*site }
}

/// The same within a DO FOR of this mark: a TEMPORARY variable is known there alone (language document, Names).
#[tactic(auto, unfolding(hal_gen_expr::specs::SeenSites::seen_site))]
pub(crate) fn group_site<'a>(site: &Site<'a>, temporary: bool, mark: usize) -> Site<'a>
    requires site { IsSite site.now }
    ensures site { IsSite result }
    ensures seen { seen_site result ≡ sites.group_site (seen_site site.now) temporary mark }
    ensures numbering { seen_numbering result ≡ seen_numbering site.now }
{
    if !temporary {
        return *site;
    }
    match site.marks.get(mark) {
        None => *site,
        Some(group) => within_block(site, *group),
    }
}
