//! How rows write bytes. A printing byte stands for itself, a newline is written `\n`, and any other byte by its two digits, as `\x7F`.
//! A number in braces says how often the byte before it comes, as `A{33}`, and `{3:AB}` is a piece that comes so often; a piece holds no
//! other one. So a backslash and braces are written `\x5C`, `\x7B` and `\x7D`.

use std::alloc::{AllocError, Global};

/// How often a byte or a piece comes at most, so that a slip in a row takes no more memory.
const MOST: usize = 70_000;

/// So many of a byte in a row are written once, with their number.
const LEAST_RUN: usize = 6;

/// What is read next.
#[derive(Clone, Copy, PartialEq, Eq)]
enum Awaited {
    Byte,
    /// What stands behind a backslash.
    Mark,
    HighDigit,
    /// The second digit, behind one of this value.
    LowDigit(u8),
    /// The rest of a number that is this one so far.
    Count(usize),
    /// Nothing, since something was wrong.
    Nothing,
}

/// A piece that is being read: how often it comes, and where it begins.
#[derive(Clone, Copy)]
struct Piece {
    count: usize,
    start: usize,
}

/// The bytes that were read so far.
#[derive(Drop)]
struct Reader {
    bytes: Vec<u8>,
    piece: Option<Piece>,
    awaited: Awaited,
}

impl Reader {
    /// Takes what comes next, and says what is awaited then.
    fn take(&mut self, byte: u8) -> Result<Awaited, AllocError> {
        match self.awaited {
            Awaited::Byte => self.begin(byte),
            Awaited::Mark => self.mark(byte),
            Awaited::HighDigit => Ok(match digit_value(byte) {
                Some(high) => Awaited::LowDigit(high),
                None => Awaited::Nothing,
            }),
            Awaited::LowDigit(high) => self.end_byte(high, byte),
            Awaited::Count(count) => self.count(count, byte),
            Awaited::Nothing => Ok(Awaited::Nothing),
        }
    }

    fn push(&mut self, byte: u8) -> Result<Awaited, AllocError> {
        self.bytes.push(byte)?;
        Ok(Awaited::Byte)
    }

    /// Takes what is no part of a longer notation yet.
    fn begin(&mut self, byte: u8) -> Result<Awaited, AllocError> {
        match byte {
            b'\\' => Ok(Awaited::Mark),
            b'{' => Ok(Awaited::Count(0)),
            b'}' => self.end_piece(),
            _ => self.push(byte),
        }
    }

    fn mark(&mut self, byte: u8) -> Result<Awaited, AllocError> {
        match byte {
            b'x' => Ok(Awaited::HighDigit),
            b'n' => self.push(b'\n'),
            _ => Ok(Awaited::Nothing),
        }
    }

    fn end_byte(&mut self, high: u8, byte: u8) -> Result<Awaited, AllocError> {
        match digit_value(byte) {
            Some(low) => self.push(high << 4 | low),
            None => Ok(Awaited::Nothing),
        }
    }

    fn count(&mut self, count: usize, byte: u8) -> Result<Awaited, AllocError> {
        match byte {
            b'}' => self.repeat_last(count),
            b':' => Ok(self.begin_piece(count)),
            b'0'..=b'9' => {
                let digit = usize::from(byte - b'0');
                Ok(Awaited::Count((count.min(MOST) * 10 + digit).min(MOST)))
            }
            _ => Ok(Awaited::Nothing),
        }
    }

    /// Adds the last byte again, until it came `count` times.
    fn repeat_last(&mut self, count: usize) -> Result<Awaited, AllocError> {
        let Some(last) = self.bytes.last() else {
            return Ok(Awaited::Nothing);
        };
        let last = *last;
        for _ in 1..count {
            self.bytes.push(last)?;
        }
        Ok(Awaited::Byte)
    }

    fn begin_piece(&mut self, count: usize) -> Awaited {
        if self.piece.is_some() {
            return Awaited::Nothing;
        }
        let start = self.bytes.len();
        self.piece = Some(Piece { count, start });
        Awaited::Byte
    }

    /// Adds the piece again, until it came as often as it is to.
    fn end_piece(&mut self) -> Result<Awaited, AllocError> {
        let Some(piece) = self.piece.take() else {
            return Ok(Awaited::Nothing);
        };
        let Some(bytes) = self.bytes.get(piece.start..) else {
            return Ok(Awaited::Nothing);
        };
        let again = bytes.repeat(*self.bytes.allocator(), piece.count.saturating_sub(1))?;
        self.bytes.extend_from_slice(again.as_slice())?;
        Ok(Awaited::Byte)
    }
}

/// The value of a hexadecimal digit.
fn digit_value(byte: u8) -> Option<u8> {
    match byte {
        b'0'..=b'9' => Some(byte - b'0'),
        b'A'..=b'F' => Some(byte - b'A' + 10),
        _ => None,
    }
}

/// The bytes that are written so; none where nothing is.
pub fn bytes_of(alloc: Global, notation: &str) -> Result<Option<Vec<u8>>, AllocError> {
    let mut reader = Reader {
        bytes: Vec::new(alloc),
        piece: None,
        awaited: Awaited::Byte,
    };
    for byte in notation.as_bytes() {
        reader.awaited = reader.take(*byte)?;
    }
    if reader.awaited == Awaited::Byte && reader.piece.is_none() {
        Ok(Some(reader.bytes))
    } else {
        Ok(None)
    }
}

/// A number of equal bytes.
#[derive(Clone, Copy)]
struct Run {
    byte: u8,
    count: usize,
}

impl Run {
    /// Writes it at the end of the text.
    fn write(self, alloc: Global, text: &mut String) -> Result<(), AllocError> {
        if LEAST_RUN <= self.count {
            write_byte(alloc, self.byte, text)?;
            let count = format!(in alloc; "{{{}}}", self.count)?;
            return text.push_str(count.as_str());
        }
        for _ in 0..self.count {
            write_byte(alloc, self.byte, text)?;
        }
        Ok(())
    }
}

fn write_byte(alloc: Global, byte: u8, text: &mut String) -> Result<(), AllocError> {
    match byte {
        b'\n' => text.push_str("\\n"),
        b'\\' | b'{' | b'}' => write_digits(alloc, byte, text),
        b' '..=b'~' => text.push(char::from(byte)),
        _ => write_digits(alloc, byte, text),
    }
}

fn write_digits(alloc: Global, byte: u8, text: &mut String) -> Result<(), AllocError> {
    let digits = format!(in alloc; "\\x{byte:02X}")?;
    text.push_str(digits.as_str())
}

/// Bytes as rows write them, with no piece that comes more than once.
pub fn notation_of(alloc: Global, bytes: &[u8]) -> Result<String, AllocError> {
    let mut text = String::new(alloc);
    let mut run = Run { byte: 0, count: 0 };
    for byte in bytes {
        if *byte == run.byte && run.count < usize::MAX {
            run.count += 1;
        } else {
            run.write(alloc, &mut text)?;
            run = Run {
                byte: *byte,
                count: 1,
            };
        }
    }
    run.write(alloc, &mut text)?;
    Ok(text)
}
