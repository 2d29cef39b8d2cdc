//! The files of the texts of a set.

ghost use Rattle.std.specs.Prelude.{◌≡◌, ◌≤◌, ◌++◌, ◌∷◌, [], IfErr, IfOk, OnOk, length, map};
ghost use Rattle.hal_base.specs.declared.limits.TheConstants.{UNIT_LIMIT};
ghost use Rattle.hal_tree.specs.SeenUnits.{seen_file};
ghost use Rattle.hal_compile.specs.Compiling.{IsOfMemory};
ghost use Rattle.hal_checked.specs.Reading.{AreRead};
ghost use Rattle.hal_compile.specs.Reading.{HaveWords, IsReadIn, TextBreaksBy, TextsBreakBy, seen_text};

use hal_base::Fault;
use hal_lexer::tokens;
use hal_parse::parse;
use hal_tree::File;
use std::alloc::{AllocError, Global};

/// The file of a text, and how many words the text has.
#[derive(Drop)]
struct FileRead {
    file: File,
    words: usize,
}

/// The files of texts, in order, and how many words the texts have together.
#[derive(Drop)]
pub(crate) struct FilesRead {
    pub(crate) files: Vec<File>,
    pub(crate) words: usize,
}

/// The file of the text of the unit with this number, or a rule of words or of the grammar that it breaks, at its place; or want of memory.
#[tactic(auto, using(crate::proofs::Readings::wrong_words, crate::proofs::Readings::no_file, crate::proofs::Readings::read_as))]
fn reading_of(alloc: Global, text: &[u8], number: u32) -> Result<FileRead, Fault>
    ensures read { IfOk result (λ reading. IsReadIn number text.now reading.file reading.words) }
    ensures broken { IfErr result (TextBreaksBy number text.now) }
{
    let tokens = tokens(alloc, text, number)?;
    let words = tokens.as_slice().len();
    let file = parse(alloc, tokens.as_slice(), number)?;
    Ok(FileRead { file, words })
}

/// Adds a file.
#[tactic(auto, using(hal_storage::proofs::elements::Repeated::one_mapped))]
fn push_file(files: &mut Vec<File>, file: File) -> Result<(), Fault>
    ensures added { OnOk result (map seen_file files.new.items ≡ map seen_file files.old.items ++ (seen_file file ∷ [])) }
    ensures wanting { IfErr result IsOfMemory }
{
    match files.push(file) {
        Ok(()) => Ok(()),
        Err(_) => Err(Fault::Memory(AllocError)),
    }
}

/// The files of the texts of a set. Of a text that is of no file, which is the first such text, a rule of words or of the grammar that it breaks, at its place; or want
/// of memory.
#[tactic(auto, using(crate::proofs::ReadingOn::start, crate::proofs::Readings::wanting))]
pub(crate) fn readings_of(alloc: Global, texts: &[Vec<u8>]) -> Result<FilesRead, Fault>
    requires few { length texts.now ≤ UNIT_LIMIT }
    ensures read { IfOk result (λ readings. AreRead 0 (map seen_text texts.now) (map seen_file readings.files.items)) }
    ensures words { IfOk result (λ readings. HaveWords 0 (map seen_text texts.now) readings.words) }
    ensures broken { IfErr result (TextsBreakBy (map seen_text texts.now)) }
{
    let mut files = Vec::new(alloc);
    let mut words = 0;
    let mut number = 0;
    for text in texts {
        let FileRead { file, words: more } = reading_of(alloc, text.as_slice(), number)?;
        push_file(&mut files, file)?;
        words += more;
        number += 1;
    }
    Ok(FilesRead { files, words })
}
