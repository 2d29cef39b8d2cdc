//! Whether a set of files has UPDATE blocks at all: most have none, and then nothing is to be found out about them.

ghost use Rattle.std.specs.Prelude.{◌≡◌, map};
ghost use Rattle.std.specs.List.{list_any};
ghost use Rattle.hal_phrases.specs.SeenPhrases.{seen_phrase};
ghost use Rattle.hal_names.specs.SeenNames.{seen_names};
ghost use Rattle.hal_lock_groups.specs.Updates as updates;

use hal_names::Names;
use hal_phrases::Phrase;

/// Whether a phrase stands in an UPDATE block.
#[tactic(auto, unfolding(crate::specs::Updates::is_updated))]
fn is_updated(phrase: &Phrase<'_>) -> bool
    ensures { result ≡ updates.is_updated (seen_phrase phrase.now) }
{
    phrase.around.update.is_some()
}

/// Whether one of these phrases does.
fn is_any_updated(phrases: &[Phrase<'_>]) -> bool
    ensures { result ≡ list_any updates.is_updated (map seen_phrase phrases.now) }
{
    for phrase in phrases {
        if is_updated(phrase) {
            return true;
        }
    }
    false
}

/// Whether a set of files has phrases that stand in UPDATE blocks (language document, Lock groups).
pub fn has_updates(names: &Names<'_>) -> bool
    ensures { result ≡ updates.has_updates (seen_names names.now) }
{
    is_any_updated(names.phrases())
}
