//! The text in which rows write a tree. Its parts stand in brackets, parted by blanks, and with each part that has a place stands its
//! place, as `<2:5>`, where the rows want places.

use hal_base::Place;
use hal_tree::{Identifier, Sign};
use hal_words::Name;
use std::alloc::{AllocError, Global};

/// The number of each file.
pub(crate) const UNIT: u32 = 7;

/// A text that grows part by part. Where memory is wanting, the pen notes it and writes on, and there is no text in the end: so what writes a
/// tree has nothing to ask after each part.
#[derive(Drop)]
pub(crate) struct Pen {
    alloc: Global,
    text: String,
    has_places: bool,
    /// Whether the next part follows without a blank.
    is_joined: bool,
    /// Whether memory was wanting.
    is_cut: bool,
}

impl Pen {
    /// Nothing so far.
    pub(crate) fn new(alloc: Global, has_places: bool) -> Pen {
        Pen {
            alloc,
            text: String::new(alloc),
            has_places,
            is_joined: true,
            is_cut: false,
        }
    }

    /// What was written, or an error where memory was wanting.
    pub(crate) fn into_text(self) -> Result<String, AllocError> {
        if self.is_cut {
            return Err(AllocError);
        }
        Ok(self.text)
    }

    /// Notes that memory is wanting.
    pub(crate) fn cut(&mut self) {
        self.is_cut = true;
    }

    /// Lets the next part follow without a blank.
    pub(crate) fn join(&mut self) {
        self.is_joined = true;
    }

    /// What follows a part directly.
    pub(crate) fn tail(&mut self, tail: &str) {
        if self.text.push_str(tail).is_err() {
            self.cut();
        }
    }

    /// A blank before a part, unless it is the first one.
    fn part(&mut self) {
        if !self.is_joined {
            self.tail(" ");
        }
        self.is_joined = false;
    }

    /// A part.
    pub(crate) fn word(&mut self, word: &str) {
        self.part();
        self.tail(word);
    }

    /// What follows directly, or a note that there was no memory for it.
    fn made(&mut self, tail: Result<String, AllocError>) {
        match tail {
            Ok(tail) => self.tail(tail.as_str()),
            Err(_) => self.cut(),
        }
    }

    /// A number.
    pub(crate) fn number(&mut self, number: u64) {
        self.part();
        self.made(format!(in self.alloc; "{number}"));
    }

    /// A byte of the source.
    fn byte(&mut self, byte: u8) {
        if self.text.push(char::from(byte)).is_err() {
            self.cut();
        }
    }

    /// Bytes of the source, as a part.
    pub(crate) fn bytes(&mut self, bytes: &[u8]) {
        self.part();
        for byte in bytes {
            self.byte(*byte);
        }
    }

    /// A place, where the rows want places.
    pub(crate) fn place(&mut self, place: Place) {
        if self.has_places {
            self.made(format!(in self.alloc; "<{}:{}>", place.line, place.column));
            if place.unit != UNIT {
                self.tail("of another file");
            }
        }
    }

    /// A bracket, what kind of tree it holds, and the place of the tree.
    pub(crate) fn open(&mut self, kind: &str, place: Place) {
        self.word("(");
        self.tail(kind);
        self.place(place);
    }

    /// The end of a tree.
    pub(crate) fn close(&mut self) {
        self.is_joined = false;
        self.tail(")");
    }

    /// The beginning of a list.
    pub(crate) fn open_list(&mut self) {
        self.word("[");
        self.join();
    }

    /// The end of a list.
    pub(crate) fn close_list(&mut self) {
        self.is_joined = false;
        self.tail("]");
    }

    /// A name and its place.
    pub(crate) fn name_at(&mut self, name: &Name, place: Place) {
        self.bytes(name.bytes());
        self.place(place);
    }

    /// A name where it stands.
    pub(crate) fn name(&mut self, name: &Identifier) {
        self.name_at(&name.name, name.place);
    }

    /// Names.
    pub(crate) fn names(&mut self, names: &[Identifier]) {
        for name in names {
            self.name(name);
        }
    }

    /// A word and the name behind it, where there is a name.
    pub(crate) fn optional_name(&mut self, word: &str, name: &Option<Identifier>) {
        if let Some(name) = name {
            self.word(word);
            self.name(name);
        }
    }

    /// A sign, which its term follows without a blank.
    pub(crate) fn sign(&mut self, sign: Sign) {
        match sign {
            Sign::Plus => self.word("+"),
            Sign::Minus => self.word("-"),
        }
        self.join();
    }
}
