//! A name of the tables that settings don't know, in words for people.

ghost use Rattle.std.specs.Prelude.{Some};
ghost use Rattle.check_core.specs.Rows.{seen, seen_row};
ghost use Rattle.check_core.specs.Words as spec;

use crate::rows::{Row, Unknown, What};
use std::fmt;

impl fmt::Display for What {
    ghost output = { λ what. Some (spec.what_word what) };

    fn fmt<W: fmt::Write>(&self, f: &mut fmt::Formatter<W>) -> fmt::Result {
        f.write_str(match self {
            What::Lifecycle => "lifecycle",
            What::Level => "level",
            What::Status => "status",
            What::Owner => "owner",
            What::Requestor => "requestor",
            What::Cc => "cc",
            What::AdminCc => "admincc",
            What::Actor => "person who made it",
        })
    }
}

impl fmt::Display for Row<'_> {
    ghost output = { λ row. Some (spec.row_text (seen_row row)) };

    fn fmt<W: fmt::Write>(&self, f: &mut fmt::Formatter<W>) -> fmt::Result {
        match *self {
            Row::Queue(name) => write!(f, "queue `{name}`"),
            Row::Request(id) => write!(f, "request {id}"),
            Row::Entry(id, number) => write!(f, "request {id}, entry {number}"),
        }
    }
}

impl fmt::Display for Unknown<'_> {
    ghost output = { λ found. Some (spec.unknown_text (seen found)) };

    fn fmt<W: fmt::Write>(&self, f: &mut fmt::Formatter<W>) -> fmt::Result {
        let Unknown { row, what, name } = *self;
        write!(f, "{row}: the settings don't know the {what} `{name}`")
    }
}
