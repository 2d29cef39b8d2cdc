//! Sets of files.

ghost use Rattle.std.specs.Prelude.{◌≡◌, IfOk, map};
ghost use Rattle.hal_tree.specs.SeenUnits.{seen_file};
ghost use Rattle.hal_phrases.specs.GatheredUnits.{phrases_of};
ghost use Rattle.hal_names.specs.SeenNames.{seen_names};
ghost use Rattle.hal_constants.specs.Known as facts;
ghost use Rattle.hal_constants.specs.SeenKnown.{seen_known};
ghost use Rattle.hal_storage.specs.layout.Layouts as layouts;
ghost use Rattle.hal_storage.specs.layout.SeenLayout.{seen_layout};
ghost use Rattle.hal_meaning.specs.Sets as sets;
ghost use Rattle.hal_storage.specs.sets.SeenSets.{seen_set};

use crate::layout::Layout;
use crate::sets::bodies::bodies_of;
use crate::sets::body::Body;
use hal_constants::Known;
use hal_names::Names;
use hal_tree::File;
use std::alloc::{AllocError, Global};

/// A set of files, with what code is made of.
#[derive(Drop)]
pub struct Set<'a> {
    pub names: &'a Names<'a>,
    /// The values of its constants.
    pub known: &'a Known,
    pub layout: &'a Layout,
    /// Its units that are entered, in order.
    pub bodies: Vec<Body<'a>>,
    /// How many turns an UPDATE block has.
    pub turns: u32,
}

impl<'a> Set<'a> {
    /// The set of these files, of which names, constants and layout are those of the files.
    #[tactic(auto, using(crate::proofs::sets::Sets::set_made))]
    pub fn of(
        alloc: Global,
        files: &'a [File],
        names: &'a Names<'a>,
        known: &'a Known,
        layout: &'a Layout,
        turns: u32,
    ) -> Result<Set<'a>, AllocError>
        requires names { seen_names names.now ≡ phrases_of (map seen_file files.now) }
        requires constants { seen_known known.now ≡ facts.known (phrases_of (map seen_file files.now)) }
        requires layout { seen_layout layout.now ≡ layouts.layout_of (phrases_of (map seen_file files.now)) (facts.known (phrases_of (map seen_file files.now))) }
        ensures { IfOk result (λ set. seen_set set ≡ sets.set_of turns (map seen_file files.now)) }
    {
        Ok(Set {
            names,
            known,
            layout,
            bodies: bodies_of(alloc, files, names)?,
            turns,
        })
    }
}
