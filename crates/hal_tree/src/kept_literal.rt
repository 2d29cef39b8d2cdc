//! Literals of trees.

use crate::leaf::LiteralValue;
use hal_words::BoxedLiteral;
use std::alloc::{AllocError, Global};
use std::marker::Model;

/// A literal whose text, where it is one, is on the heap.
#[derive(Drop)]
pub(crate) enum Kept {
    Integer(u32),
    Text(BoxedLiteral),
    Bits { len: u8, word: u32 },
    True,
    False,
    On,
    Off,
}

/// A literal of a tree, which a contract sees as the literal. Its text is on the heap, so that an expression is small: a unit has
/// expressions by the ten thousand, and few of them are texts.
#[derive(Drop)]
pub struct KeptLiteral {
    kept: Kept,
}

impl Model for KeptLiteral {
    ghost use Rattle.hal_tree.specs.declared.leaf.LiteralValue.{LiteralValue};
    ghost use Rattle.hal_tree.specs.KeptLiterals.{told};

    ghost Value = { LiteralValue };

    ghost view = { λ literal. told literal.kept };
}

impl KeptLiteral {
    ghost use Rattle.std.specs.Prelude.{◌≡◌, IfOk};

    /// The literal with its text on the heap, or want of memory.
    pub fn new(alloc: Global, literal: LiteralValue) -> Result<KeptLiteral, AllocError>
        ensures { IfOk result (λ kept. kept ≡ literal) }
    {
        let kept = match literal {
            LiteralValue::Integer(number) => Kept::Integer(number),
            LiteralValue::Text(text) => Kept::Text(BoxedLiteral::new(alloc, text)?),
            LiteralValue::Bits { len, word } => Kept::Bits { len, word },
            LiteralValue::True => Kept::True,
            LiteralValue::False => Kept::False,
            LiteralValue::On => Kept::On,
            LiteralValue::Off => Kept::Off,
        };
        Ok(KeptLiteral { kept })
    }

    /// The literal.
    pub fn value(&self) -> LiteralValue
        ensures { result ≡ self.now }
    {
        match &self.kept {
            Kept::Integer(number) => LiteralValue::Integer(*number),
            Kept::Text(text) => LiteralValue::Text(text.literal()),
            Kept::Bits { len, word } => LiteralValue::Bits {
                len: *len,
                word: *word,
            },
            Kept::True => LiteralValue::True,
            Kept::False => LiteralValue::False,
            Kept::On => LiteralValue::On,
            Kept::Off => LiteralValue::Off,
        }
    }
}
