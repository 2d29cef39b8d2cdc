//! The first shared cells of data.

ghost use Rattle.std.specs.Prelude.{◌≡◌, ◌++◌, ◌∷◌, [], IfOk, OnOk, length, map};
ghost use Rattle.hal_phrases.specs.SeenPhrases.{seen_phrase};
ghost use Rattle.hal_names.specs.SeenNames.{seen_names};
ghost use Rattle.hal_constants.specs.SeenKnown.{seen_known};
ghost use Rattle.hal_meaning.specs.Places.{cells_at};
ghost use Rattle.hal_storage.specs.referents.FirstCells as firsts;

use crate::cells::push_cells_at;
use hal_constants::Known;
use hal_names::Names;
use hal_phrases::Phrase;
use hal_values::Cell;
use std::alloc::{AllocError, Global};

/// Of each phrase how many shared cells lie before those that it declares.
#[derive(Drop)]
pub struct FirstCells {
    numbers: Vec<usize>,
    /// How many there are in all, for phrases that aren't there.
    all: usize,
}

/// Adds the cells that a phrase declares, and how many lie before them.
#[tactic(auto, unfolding(crate::specs::referents::FirstCells::with_own, crate::specs::referents::FirstCells::with_number))]
fn push_counted(
    alloc: Global,
    cells: &mut Vec<Cell>,
    numbers: &mut Vec<usize>,
    names: &Names<'_>,
    known: &Known,
    phrase: &Phrase<'_>,
) -> Result<(), AllocError>
    ensures cells { OnOk result (cells.new.items ≡ firsts.with_own (seen_names names.now) (seen_known known.now) cells.old.items (seen_phrase phrase.now)) }
    ensures numbers { OnOk result (numbers.new.items ≡ firsts.with_number cells.old.items numbers.old.items) }
{
    numbers.push(cells.len())?;
    push_cells_at(alloc, cells, names, known, phrase)?;
    Ok(())
}

/// Adds the cells that phrases declare, and how many lie before those of each.
#[tactic(auto, unfolding(crate::specs::referents::FirstCells::with_cells, crate::specs::referents::FirstCells::with_numbers))]
fn push_all(
    alloc: Global,
    cells: &mut Vec<Cell>,
    numbers: &mut Vec<usize>,
    names: &Names<'_>,
    known: &Known,
    phrases: &[Phrase<'_>],
) -> Result<(), AllocError>
    ensures cells { OnOk result (cells.new.items ≡ firsts.with_cells (seen_names names.now) (seen_known known.now) cells.old.items (map seen_phrase phrases.now)) }
    ensures numbers { OnOk result (numbers.new.items ≡ firsts.with_numbers (seen_names names.now) (seen_known known.now) cells.old.items numbers.old.items (map seen_phrase phrases.now)) }
{
    for phrase in phrases {
        push_counted(alloc, cells, numbers, names, known, phrase)?;
    }
    Ok(())
}

impl FirstCells {
    /// Those of a set of files (language document, Places).
    #[tactic(auto, using(crate::proofs::referents::Counted::all_counted))]
    pub fn new(alloc: Global, names: &Names<'_>, known: &Known) -> Result<FirstCells, AllocError>
        ensures { IfOk result (λ cells. firsts.AreFirstCells (seen_names names.now) (seen_known known.now) cells) }
    {
        let mut cells = Vec::new(alloc);
        let mut numbers = Vec::with_capacity(alloc, names.phrases().len())?;
        push_all(
            alloc,
            &mut cells,
            &mut numbers,
            names,
            known,
            names.phrases(),
        )?;
        Ok(FirstCells {
            numbers,
            all: cells.len(),
        })
    }

    /// How many lie before those of the phrase with this number.
    pub fn before(&self, number: usize) -> usize
        ensures { result ≡ firsts.first_in self.now number }
    {
        match self.numbers.get(number) {
            None => self.all,
            Some(first) => *first,
        }
    }
}
