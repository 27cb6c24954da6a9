//! A reader and a writer that do less than they could.

use std::io::{Read, Result, Write};

/// A reader that gives one byte at a time.
#[derive(Drop)]
pub(crate) struct Slow<'b>(pub(crate) &'b [u8]);

impl Read for Slow<'_> {
    fn read(&mut self, buf: &mut [u8]) -> Result<usize> {
        match self.0.split_first() {
            Some((first, rest)) if !buf.is_empty() => {
                buf[0] = *first;
                self.0 = rest;
                Ok(1)
            }
            _ => Ok(0),
        }
    }
}

/// A writer that takes one byte at a time.
#[derive(Drop)]
pub(crate) struct Part(pub(crate) Vec<u8>);

impl Write for Part {
    fn write(&mut self, buf: &[u8]) -> Result<usize> {
        match buf.first() {
            Some(byte) => {
                self.0.push(*byte)?;
                Ok(1)
            }
            None => Ok(0),
        }
    }

    fn flush(&mut self) -> Result<()> {
        Ok(())
    }
}
