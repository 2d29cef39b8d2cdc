//! The image of the texts of a set.

ghost use Rattle.std.specs.Prelude.{◌≤◌, IfErr, IfOk, length, map};
ghost use Rattle.hal_base.specs.declared.limits.TheConstants.{UNIT_LIMIT};
ghost use Rattle.hal_tree.specs.SeenUnits.{seen_file};
ghost use Rattle.hal_checked.specs.Reading.{AreRead};
ghost use Rattle.hal_compile.specs.Reading.{HaveFewWords, seen_text};
ghost use Rattle.hal_compile.specs.Texts.{BreakBy, IsOverfull, MakesImage};

use crate::compiling::image_of;
use crate::linking::BEGINNING;
use crate::reading::{FilesRead, readings_of};
use hal_base::rules::TOO_MANY_WORDS_IN_SET;
use hal_base::{Fault, Refusal, Rule, TOKEN_SUM_LIMIT};
use hal_code::ImageParts;
use hal_right_images::images::an_image_of_checked_texts_is_whole;
use hal_tree::File;
use std::alloc::Global;

/// Rule 953, broken by the set.
fn overfull() -> Fault
    ensures { IsOverfull result }
{
    Fault::Broken(Refusal {
        rule: Rule(TOO_MANY_WORDS_IN_SET),
        place: BEGINNING,
    })
}

/// The files of the texts of a set; or a rule of words, of the grammar, or 953, that it breaks, at its place; or want of memory.
#[tactic(auto, using(crate::proofs::Readings::texts_break, crate::proofs::Readings::too_many_words, crate::proofs::Readings::few_words))]
fn files_of(alloc: Global, texts: &[Vec<u8>]) -> Result<Vec<File>, Fault>
    requires few { length texts.now ≤ UNIT_LIMIT }
    ensures read { IfOk result (λ files. AreRead 0 (map seen_text texts.now) (map seen_file files.items)) }
    ensures few_words { IfOk result (λ files. HaveFewWords (map seen_text texts.now)) }
    ensures broken { IfErr result (BreakBy (map seen_text texts.now)) }
{
    let FilesRead { files, words } = readings_of(alloc, texts)?;
    if words > TOKEN_SUM_LIMIT as usize {
        return Err(overfull());
    }
    Ok(files)
}

/// The image of the set of the units with these texts, in order, or a rule that the set breaks, at its place; or want of memory. See docs/LANGUAGE.md. A place in
/// the text of a unit has the unit's number, from 0 in this order; of rules that are told of the set as a whole it is line 1, column 1 of the first unit.
#[tactic(auto, using(crate::proofs::Broken::set_breaks, crate::proofs::Broken::image_made))]
pub fn image_of_texts(alloc: Global, texts: &[Vec<u8>]) -> Result<ImageParts, Fault>
    requires few { length texts.now ≤ UNIT_LIMIT }
    ensures made { IfOk result (MakesImage (map seen_text texts.now)) }
    ensures broken { IfErr result (BreakBy (map seen_text texts.now)) }
{
    an_image_of_checked_texts_is_whole();
    let files = files_of(alloc, texts)?;
    image_of(alloc, &files)
}
