//! The text of what is late.

ghost use Rattle.std.specs.Prelude.{◌≡◌, ◌++◌, IfOk, OnOk, decimal, string_bytes};
ghost use Rattle.std.specs.List.{flat_map};
ghost use Rattle.desk_texts.specs.Texts.Overdue as text;

use crate::texts::minute::as_text;
use crate::texts::shown::name_or;
use desk_model::LateLine;
use hours_core::minute_text;
use itoa::Buffer;
use std::alloc::{AllocError, Global};

/// The text of a list of late requests: a header, and a line for each with its number, its queue,
/// its owner, when it was due and for how many minutes it has been late.
pub fn overdue_text(alloc: Global, requests: &[LateLine]) -> Result<String, AllocError>
    ensures { IfOk result (λ t. string_bytes t ≡ text.overdue_text requests.now) }
{
    let mut out = String::new(alloc);
    put_overdue_header(&mut out)?;
    put_late_lines(&mut out, requests)?;
    Ok(out)
}

/// Puts the header of a list of late requests. After an error nothing is known of the text.
pub fn put_overdue_header(out: &mut String) -> Result<(), AllocError>
    ensures { OnOk result (string_bytes out.new ≡ string_bytes out.old ++ text.header) }
{
    put_columns(out, "id", "queue", "owner", "due", "late")
}

fn put_late_lines(out: &mut String, requests: &[LateLine]) -> Result<(), AllocError>
    ensures { OnOk result (string_bytes out.new
        ≡ string_bytes out.old ++ flat_map text.line_of_request requests.now) }
{
    for request in requests {
        put_late_line(out, request)?;
    }
    Ok(())
}

/// Puts the line of a late request. After an error nothing is known of the text.
#[tactic(auto, unfolding(crate::specs::Texts::Overdue::line_of_request))]
pub fn put_late_line(out: &mut String, request: &LateLine) -> Result<(), AllocError>
    ensures { OnOk result (string_bytes out.new
        ≡ string_bytes out.old ++ text.line_of_request request.now) }
{
    let mut id = Buffer::new();
    let mut late = Buffer::new();
    let due = minute_text(request.due);
    let queue = request.queue.as_str();
    let owner = name_or(&request.owner, "Nobody");
    put_columns(
        out,
        id.format(request.id),
        queue,
        owner,
        as_text(&due),
        late.format(request.late),
    )
}

/// A line of these columns, of the header or of a request.
#[tactic(auto, unfolding(crate::specs::Texts::Overdue::columns))]
fn put_columns(
    out: &mut String,
    id: &str,
    queue: &str,
    owner: &str,
    due: &str,
    late: &str,
) -> Result<(), AllocError>
    ensures { OnOk result (string_bytes out.new ≡ string_bytes out.old
        ++ text.columns id.now queue.now owner.now due.now late.now) }
{
    write!(out, "{id:>7} {queue:<20} {owner:<20} {due:<16} {late:>8}\n")
}
