use hal_base::rules::TOO_MANY_WORDS_IN_UNIT;
use hal_base::{Fault, Place, TOKEN_LIMIT};
use hal_pieces::broken;
use hal_words::{Token, Word};
use std::alloc::{AllocError, Global};
use std::marker::Model;

/// The words of a file in order, at most `TOKEN_LIMIT`, which a contract sees as a list.
#[derive(Drop)]
pub struct Tokens {
    items: Vec<Token>,
}

impl Model for Tokens {
    ghost use Rattle.std.specs.Prelude.{List, length, ◌≤◌};
    ghost use Rattle.hal_base.specs.declared.limits.TheConstants.{TOKEN_LIMIT};
    ghost use Rattle.hal_words.specs.declared.word.Token.{Token};

    ghost Value = { List Token };

    ghost view = { λ t. t.items.items };

    ghost invariant = { λ t. length t.items.items ≤ TOKEN_LIMIT };
}

impl Tokens {
    ghost use Rattle.std.specs.Prelude.{◌≡◌, ◌≤◌, ◌∷◌, [], ◌++◌, List, length, map, OnOk, IfErr, IfOk};
    ghost use Rattle.hal_base.specs.declared.limits.TheConstants.{TOKEN_LIMIT};
    ghost use Rattle.hal_words.specs.Pieces.{Is};
    ghost use Rattle.hal_words.specs.Lines as lines;
    ghost use Rattle.hal_words.specs.Lines.{item};
    ghost use Rattle.hal_words.specs.Words.{word_item};
    ghost use Rattle.hal_lexer.specs.Faults.{Explains};

    /// No word, with room for so many at once, or for as many as there may be.
    pub(crate) fn with_capacity(alloc: Global, count: usize) -> Result<Tokens, AllocError>
        ensures { IfOk result (λ tokens. tokens ≡ []) }
    {
        let items = Vec::with_capacity(alloc, count.min(TOKEN_LIMIT as usize))?;
        Ok(Tokens { items })
    }

    /// The words.
    pub fn as_slice(&self) -> &[Token]
        ensures words { result.now ≡ self.now }
        ensures few { length self.now ≤ TOKEN_LIMIT }
    {
        self.items.as_slice()
    }

    /// Adds a word, if there is room for it.
    pub(crate) fn push(&mut self, word: Word, place: Place) -> Result<(), Fault>
        ensures added { OnOk result (map word_item self.new ≡ map word_item self.old ++ item (Is word) place ∷ []) }
        ensures broken { IfErr result (λ fault. (rest : List lines.Item) →
            Explains (map word_item self.old ++ item (Is word) place ∷ rest) fault) }
    {
        if self.items.len() >= TOKEN_LIMIT as usize {
            return Err(broken(TOO_MANY_WORDS_IN_UNIT, place));
        }
        if self.items.push(Token { word, place }).is_err() {
            return Err(Fault::Memory(AllocError));
        }
        Ok(())
    }
}
