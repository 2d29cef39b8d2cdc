//! What holds of the files of a set's texts, as the compiler reads and checks them, and of their image.

ghost use Rattle.std.specs.Prelude.{◌≡◌, ℕ, true, List};
ghost use Rattle.hal_grammar.specs.Units.{File};
ghost use Rattle.hal_phrases.specs.GatheredUnits.{phrases_of};
ghost use Rattle.hal_code.specs.declared.image.ImageParts.{ImageParts};
ghost use Rattle.hal_verify.specs.Limits.{spread_kept};
ghost use Rattle.hal_checked.specs.Checking.{IsChecked, LinksWhole};
ghost use Rattle.hal_checked.specs.Reading.{AreRead};
ghost use Rattle.hal_right_images.specs.spelled.Words.{AreAllSpelled};
ghost use Rattle.hal_right_images.specs.images.Accepted.{IsAccepted};

use crate::images::laws::a_linked_image_is_right;
use crate::rows::each_view_of_an_image_has_a_cell;
use crate::spelled::the_words_of_a_text_are_right;

/// Right words spell the files that texts are of (language document, Words and Grammar).
pub fn the_words_of_texts_spell_their_files()
    ensures { (number : ℕ) (texts : List (List ℕ)) (files : List File) → AreRead number texts files → AreAllSpelled files }
{
    the_words_of_a_text_are_right();
}

/// Files that texts are of and that break no rule which the compiler checks before it links them are accepted, with any image whose shapes and views have few enough
/// cells (image document, When an image is right).
pub fn files_of_checked_texts_are_accepted()
    ensures { (texts : List (List ℕ)) (files : List File) (image : ImageParts) → AreRead 0 texts files → IsChecked (phrases_of files) → spread_kept image ≡ true → IsAccepted files image }
{
    the_words_of_texts_spell_their_files();
}

/// So the image that they are linked to meets V1 to V8, and each of its views gives a cell, where its shapes and views have few enough cells (image document, When an image
/// is right).
pub fn an_image_of_checked_texts_is_whole()
    ensures { (texts : List (List ℕ)) (files : List File) → AreRead 0 texts files → IsChecked (phrases_of files) → LinksWhole files }
{
    files_of_checked_texts_are_accepted();
    a_linked_image_is_right();
    each_view_of_an_image_has_a_cell();
}
