//! How names are looked up.

ghost use Rattle.std.specs.Prelude.{◌≡◌, filter, map, IfOk, slice_get};
ghost use Rattle.std.specs.List.{list_any};
ghost use Rattle.std.specs.Option.{option_map};
ghost use Rattle.hal_phrases.specs.SeenPhrases.{seen_phrase};
ghost use Rattle.hal_names.specs.Keys.{own};
ghost use Rattle.hal_names.specs.Means.{included_before, means, unit_named};
ghost use Rattle.hal_tree.specs.SeenUnits.{seen_preface};
ghost use Rattle.hal_names.specs.SeenNames.{seen_names};
ghost use Rattle.hal_names.specs.Spans.{is_of};
ghost use Rattle.hal_names.specs.Tasks.{is_task_in};

use crate::declarations::declared_places;
use crate::index::{index_of, number_of};
use crate::key::Key;
use crate::means::{included_before, nearest, unit_named};
use crate::names::Names;
use crate::spans::{phrases_in, spans_of};
use crate::tasks::homes_of;
use hal_phrases::Phrase;
use hal_tree::Preface;
use hal_words::Name;
use std::alloc::{AllocError, Global};

impl<'a> Names<'a> {
    /// The names of these phrases.
    pub fn of(alloc: Global, phrases: Vec<Phrase<'a>>) -> Result<Names<'a>, AllocError>
        ensures { IfOk result (λ names. seen_names names ≡ map seen_phrase phrases.entry.items) }
    {
        let declared = declared_places(alloc, phrases.as_slice())?;
        let index = index_of(alloc, phrases.as_slice())?;
        let tasks = homes_of(alloc, phrases.as_slice())?;
        let spans = spans_of(alloc, phrases.as_slice())?;
        Ok(Names {
            phrases,
            declared,
            index,
            tasks,
            spans,
        })
    }

    /// The phrases.
    pub fn phrases(&self) -> &[Phrase<'a>]
        ensures { map seen_phrase result.now ≡ seen_names self.now }
    {
        self.phrases.as_slice()
    }

    /// Phrases that stand one behind the other: all those of the home with this number, and others that stand between them.
    pub fn of_home(&self, home: usize) -> &[Phrase<'a>]
        ensures { filter (is_of home) (map seen_phrase result.now) ≡ filter (is_of home) (seen_names self.now) }
    {
        phrases_in(&self.spans, self.phrases.as_slice(), home)
    }

    /// The phrase with this number.
    pub fn phrase(&self, number: usize) -> Option<Phrase<'a>>
        ensures { option_map seen_phrase result ≡ slice_get (seen_names self.now) number }
    {
        self.phrases.get(number).copied()
    }

    /// The number of the first phrase that declares the key.
    pub fn own(&self, key: &Key) -> Option<usize>
        ensures { result ≡ own (seen_names self.now) key.now }
    {
        number_of(&self.index, key)
    }

    /// The number of the phrase that declares what the name means in the block with this number (language document, Names).
    pub fn means(&self, block: usize, name: &Name) -> Option<usize>
        ensures { result ≡ means (seen_names self.now) block name.now }
    {
        nearest(self, self.phrases.len(), block, name)
    }

    /// Whether a TASK stands directly in the unit with this number (language document, Units).
    #[tactic(auto, using(crate::proofs::Homes::tasks_found))]
    pub fn has_task(&self, unit: usize) -> bool
        ensures { result ≡ list_any (is_task_in unit) (seen_names self.now) }
    {
        self.tasks.contains(&unit)
    }

    /// The number of the unit of this name in the set.
    pub fn unit_named(&self, unit: &Name) -> Option<usize>
        ensures { result ≡ unit_named (seen_names self.now) unit.now }
    {
        unit_named(self, unit)
    }

    /// What a name means by the templates that so many of these prefaces include.
    pub fn included_before(&self, count: usize, prefaces: &[Preface], name: &Name) -> Option<usize>
        ensures { result ≡ included_before (seen_names self.now) (map seen_preface prefaces.now) count name.now }
    {
        included_before(self, count, prefaces, name)
    }
}
