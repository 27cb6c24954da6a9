//! The text of a queue's requests.

ghost use Rattle.std.specs.Prelude.{◌≡◌, ◌++◌, IfOk, OnOk, decimal, string_bytes};
ghost use Rattle.std.specs.List.{flat_map};
ghost use Rattle.desk_texts.specs.Texts.Listed as text;
ghost use Rattle.desk_texts.specs.Words.{or_nobody};

use crate::texts::minute::as_text;
use crate::texts::shown::name_or;
use desk_model::Line;
use hours_core::minute_text;
use itoa::Buffer;
use std::alloc::{AllocError, Global};

/// The text of a list of requests: a header, and a line for each with its number, its status, its
/// owner, when it is due and its subject.
pub fn list_text(alloc: Global, requests: &[Line]) -> Result<String, AllocError>
    ensures { IfOk result (λ t. string_bytes t ≡ text.list_text requests.now) }
{
    let mut out = String::new(alloc);
    put_list_header(&mut out)?;
    put_lines(&mut out, requests)?;
    Ok(out)
}

/// Puts the header of a list of requests. After an error nothing is known of the text.
pub fn put_list_header(out: &mut String) -> Result<(), AllocError>
    ensures { OnOk result (string_bytes out.new ≡ string_bytes out.old ++ text.header) }
{
    put_columns(out, "id", "status", "owner", "due", "subject")
}

fn put_lines(out: &mut String, requests: &[Line]) -> Result<(), AllocError>
    ensures { OnOk result (string_bytes out.new
        ≡ string_bytes out.old ++ flat_map text.line_of_request requests.now) }
{
    for request in requests {
        put_line(out, request)?;
    }
    Ok(())
}

/// Puts the line of a request. After an error nothing is known of the text.
pub fn put_line(out: &mut String, request: &Line) -> Result<(), AllocError>
    ensures { OnOk result (string_bytes out.new
        ≡ string_bytes out.old ++ text.line_of_request request.now) }
{
    match request.due {
        Some(due) => put_due(out, request, as_text(&minute_text(due))),
        None => put_due(out, request, "-"),
    }
}

/// The line of a request that is due then.
fn put_due(out: &mut String, request: &Line, due: &str) -> Result<(), AllocError>
    ensures { OnOk result (string_bytes out.new ≡ string_bytes out.old
        ++ text.columns (decimal request.now.id) request.now.status (or_nobody request.now.owner)
        due.now request.now.subject) }
{
    let mut id = Buffer::new();
    let status = request.status.as_str();
    let owner = name_or(&request.owner, "Nobody");
    let subject = request.subject.as_str();
    put_columns(out, id.format(request.id), status, owner, due, subject)
}

/// A line of these columns, of the header or of a request.
#[tactic(auto, unfolding(crate::specs::Texts::Listed::columns))]
fn put_columns(
    out: &mut String,
    id: &str,
    status: &str,
    owner: &str,
    due: &str,
    subject: &str,
) -> Result<(), AllocError>
    ensures { OnOk result (string_bytes out.new ≡ string_bytes out.old
        ++ text.columns id.now status.now owner.now due.now subject.now) }
{
    write!(
        out,
        "{id:>7} {status:<20} {owner:<20} {due:<16} {subject}\n"
    )
}
