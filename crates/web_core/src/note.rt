//! What the log notes of a message and its reply.
ghost use Rattle.std.specs.Prelude.{◌≡◌, [], IfOk, Ok, unwrap_or};
ghost use Rattle.httparse.specs.Grammar.{RequestHead};
ghost use Rattle.message_core.specs.Head.{StartsWith};
ghost use Rattle.message_core.specs.Request.{values_in};
ghost use Rattle.route_core.specs.Commands as interface;
ghost use Rattle.web_core.specs.Notes as form;
ghost use Rattle.web_core.specs.Notes.{IsNote, NotesRead};

use log_core::{Note, note_of};
use message_core::{Request, WireFault, header_value};
use page_routes::{caller_of, is_page_place};
use settings_core::Settings;
use std::alloc::{AllocError, Global};
use text_core::Text;

/// The note of what was read at a minute and of its reply; empty, where there is no memory for it.
pub(crate) fn note_on(
    alloc: Global,
    proxied: bool,
    https: bool,
    settings: &Settings,
    at: u32,
    read: &Result<Request, WireFault>,
    reply: &[u8],
) -> Vec<u8>
    ensures { IsNote proxied https settings.now at read.now reply.now result.items }
{
    match noted(alloc, proxied, https, settings, at, read, reply) {
        Ok(note) => note,
        Err(_) => Vec::new(alloc),
    }
}

/// The same, where there is memory for it.
fn noted(
    alloc: Global,
    proxied: bool,
    https: bool,
    settings: &Settings,
    at: u32,
    read: &Result<Request, WireFault>,
    reply: &[u8],
) -> Result<Vec<u8>, AllocError>
    ensures { IfOk result (λ note. NotesRead proxied https settings.now at read.now reply.now
        note.items) }
{
    match read {
        Ok(request) => note_in(alloc, proxied, https, settings, at, request, reply),
        Err(_) => {
            let nothing = Note {
                forwarded: &[],
                person: &[],
                method: &[],
                target: &[],
            };
            note_of(alloc, nothing, reply)
        }
    }
}

/// The note of a message and its reply.
fn note_in(
    alloc: Global,
    proxied: bool,
    https: bool,
    settings: &Settings,
    at: u32,
    request: &Request,
    reply: &[u8],
) -> Result<Vec<u8>, AllocError>
    ensures { IfOk result (λ note. NotesRead proxied https settings.now at (Ok request.now) reply.now
        note.items) }
{
    let person = person_in(alloc, https, settings, at, request)?;
    let note = Note {
        forwarded: forwarded_in(proxied, request.head.as_slice()),
        person: bytes_of(&person),
        method: request.message.method.as_slice(),
        target: request.message.target.as_slice(),
    };
    note_of(alloc, note, reply)
}

/// The bytes of a text; none where there is none.
fn bytes_of(text: &Option<Text>) -> &[u8]
    ensures { result.now ≡ unwrap_or text.now [] }
{
    match text {
        Some(text) => text.as_str().as_bytes(),
        None => &[],
    }
}

/// Where a message comes from, if a proxy stands in front and tells.
pub(crate) fn forwarded_in(proxied: bool, head: &[u8]) -> &[u8]
    ensures { (h : RequestHead) → StartsWith head.now h []
        → result.now ≡ form.forwarded_in proxied h }
{
    if !proxied {
        return &[];
    }
    match header_value(head, "X-Forwarded-For") {
        Some(value) => value,
        None => &[],
    }
}

/// Whose cookie or token a message has at a minute.
fn person_in(
    alloc: Global,
    https: bool,
    settings: &Settings,
    at: u32,
    request: &Request,
) -> Result<Option<Text>, AllocError>
    ensures { (h : RequestHead) → StartsWith request.now.head h []
        → IfOk result (λ person. unwrap_or person []
        ≡ form.person_in https settings.now at request.now.message (values_in h)) }
{
    if is_page_place(request.message.target.as_slice()) {
        caller_of(alloc, settings, https, at, request)
    } else {
        person_of(alloc, settings, &request.message.token)
    }
}

/// The person of a token, if the settings have it.
fn person_of(
    alloc: Global,
    settings: &Settings,
    token: &Option<Text>,
) -> Result<Option<Text>, AllocError>
    ensures { IfOk result (λ person. person ≡ interface.caller_of settings.now token.now) }
{
    let Some(token) = token else {
        return Ok(None);
    };
    match settings.person_of_token(token.as_str()) {
        Some(person) => Ok(Some(Text::new(alloc, person)?)),
        None => Ok(None),
    }
}
