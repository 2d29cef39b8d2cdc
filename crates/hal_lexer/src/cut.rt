//! What is kept of a text: the numbers of its words.

ghost use Rattle.std.specs.Prelude.{◌≡◌, ℕ, List, Some, IfOk, IfSome, OnOk};
ghost use Rattle.hal_words.specs.declared.word.Word as words;
ghost use Rattle.hal_words.specs.Replacing.{Definitions};
ghost use Rattle.hal_lexer.specs.Sound.{IsSound};
ghost use Rattle.hal_lexer.specs.Summary.{IsCut, IsTextOf, Keeps, Numbered};
ghost use Rattle.hal_lexer.specs.Texts.{IsText};

use crate::number_list::{NumberList, Numbers};
use crate::summary::{Cut, Summary};
use crate::text::words_of;
use crate::text_words::is_replace;
use hal_words::Word;
use std::alloc::{AllocError, Global};

/// What is kept of a text, whose words get numbers where they have none.
pub(crate) fn cut_of(alloc: Global, summary: &mut Summary, text: &[u8]) -> Result<Cut, AllocError>
    requires { IsText text.now }
    ensures cut { IfOk result (λ cut. (definitions : Definitions) → IsSound definitions summary.old → IsCut summary.new.words.items cut (Some text.now)) }
    ensures sound { OnOk result ((definitions : Definitions) → IsSound definitions summary.old → IsSound definitions summary.new) }
    ensures keeps { OnOk result (Keeps summary.old.words.items summary.new.words.items) }
{
    let Some(words) = words_of(alloc, text)? else {
        return Ok(Cut::Broken);
    };
    match numbers_of(alloc, summary, words.as_slice())? {
        Some(numbers) => {
            let cut = cut_from(alloc, numbers)?;
            Ok(cut)
        }
        None => Ok(Cut::Broken),
    }
}

/// The numbers of these words; None where REPLACE is among them.
fn numbers_of(
    alloc: Global,
    summary: &mut Summary,
    words: &[Word],
) -> Result<Option<Vec<u32>>, AllocError>
    ensures numbers { IfOk result (λ found. IfSome found (λ numbers. (definitions : Definitions) → IsSound definitions summary.old → Numbered summary.new.words.items words.now numbers.items)) }
    ensures sound { OnOk result ((definitions : Definitions) → IsSound definitions summary.old → IsSound definitions summary.new) }
    ensures keeps { OnOk result (Keeps summary.old.words.items summary.new.words.items) }
{
    let mut numbers = Vec::new(alloc);
    'word: for word in words {
        if is_replace(word) {
            return Ok(None);
        }
        let number = summary.number_of(word.copy(alloc)?)?;
        if numbers.push(number).is_err() {
            return Err(AllocError);
        }
    }
    Ok(Some(numbers))
}

/// What is kept of a text whose words have these numbers: of one word, no list.
fn cut_from(alloc: Global, numbers: Vec<u32>) -> Result<Cut, AllocError>
    ensures { IfOk result (λ cut. (all : List words.Word) (text : List ℕ) → IsTextOf all text numbers.items → IsCut all cut (Some text)) }
{
    if let [one] = numbers.as_slice() {
        return Ok(Cut::Word(*one));
    }
    let items = NumberList::new(alloc, numbers)?;
    Ok(Cut::Words(Numbers { items }))
}
