//! The paths at which commands are asked for, and what a path names.

use crate::table::CommandForm;

#[derive(Clone, Copy)]
pub enum Method {
    Get,
    Post,
}

/// A part of a path between slashes.
#[derive(Clone, Copy)]
pub enum Part {
    /// This text.
    Lit(&'static str),
    /// A queue's name.
    Queue,
    /// A request's number.
    Id,
}

/// A method, a path, and the form of the command for which they ask.
#[derive(Clone, Copy)]
pub struct Path(pub Method, pub &'static [Part], pub CommandForm);

/// What the parts of a path name.
#[derive(Clone, Copy)]
pub enum PathParameter<'a> {
    Nothing,
    Queue(&'a str),
    Request(u32),
}
