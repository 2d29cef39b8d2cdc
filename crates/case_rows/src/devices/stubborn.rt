//! A printer that takes little, or nothing.

use std::{fmt, io};

/// A printer that takes so many bytes of a piece at most, or is broken.
#[derive(Drop)]
pub(crate) struct Stubborn {
    pub(crate) most: usize,
    pub(crate) is_broken: bool,
}

impl Print for Stubborn {
    fn print<D: fmt::Display + Drop>(&self, _value: D) -> io::Result<()> {
        Ok(())
    }

    fn println<D: fmt::Display + Drop>(&self, _value: D) -> io::Result<()> {
        Ok(())
    }

    fn write_all(&self, _bytes: &[u8]) -> io::Result<()> {
        Ok(())
    }

    fn write_some(&self, bytes: &[u8]) -> io::Result<usize> {
        if self.is_broken {
            return Err(io::Error::from(io::ErrorKind::BrokenPipe));
        }
        Ok(bytes.len().min(self.most))
    }
}
