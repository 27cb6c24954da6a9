//! A handle that keeps what is printed.

use std::alloc::Global;
use std::cell::RefCell;
use std::fmt::Display;
use std::io::{Error, ErrorKind, Result};

/// What was printed so far.
#[derive(Drop)]
pub struct Told {
    alloc: Global,
    text: RefCell<Vec<u8>>,
}

impl Told {
    /// Nothing yet.
    pub fn new(alloc: Global) -> Told {
        Told {
            alloc,
            text: RefCell::new(Vec::new(alloc)),
        }
    }

    /// What was printed.
    pub fn into_text(self) -> Vec<u8> {
        self.text.into_inner()
    }
}

impl Alloc for Told {
    type A = Global;

    fn alloc(&self) -> Global {
        self.alloc
    }
}

impl Print for Told {
    fn print<D: Display + Drop>(&self, value: D) -> Result<()> {
        let text = format!(in self.alloc; "{value}")?;
        self.write_all(text.as_bytes())
    }

    fn println<D: Display + Drop>(&self, value: D) -> Result<()> {
        let text = format!(in self.alloc; "{value}\n")?;
        self.write_all(text.as_bytes())
    }

    fn write_all(&self, bytes: &[u8]) -> Result<()> {
        match self.text.try_borrow_mut() {
            Ok(mut text) => Ok(text.extend_from_slice(bytes)?),
            Err(_) => Err(Error::from(ErrorKind::Other)),
        }
    }
}
