//! Cases of pages, forms and searches: messages as browsers send them, and what their replies say.

use crate::calls::serve_page;
use crate::desks::{Before, attached};
use crate::failure::Failure;
use crate::messages::{do_first, messages_in, sent_of};
use crate::served::{Sent, put_reply};
use crate::tables::Opening;
use case_text::{Case, Named, str_of};
use service_core::Desk;
use std::alloc::{AllocError, Global};
use store_core::Backend;
use wire_core::Routes;

/// The mark that stands for a whole reply.
const WHOLE: &str = "(whole)";

/// The mark that stands for all before the first empty line.
const HEAD: &str = "(head)";

/// Serves each message of a case in turn, and adds what stands after its moment, if
/// anything, and the lines of its reply in which one of the lines of the part `marks` stands. A mark
/// `(head)` stands for the whole head of each reply, and `(whole)` for all of it, with a backslash
/// and `r` for each carriage return.
pub(crate) fn run_case<O: Opening>(
    alloc: Global,
    out: &mut String,
    opening: &O,
    case: &Case<'_>,
) -> Result<(), Failure> {
    let before = Before::of(case, "desk")?;
    let mut desk = attached(alloc, opening, before.tables, before.settings)?;
    let told = serve_each(alloc, out, before.commands, case, &mut desk);
    drop(desk);
    told
}

fn serve_each<S: Backend>(
    alloc: Global,
    out: &mut String,
    commands: &str,
    case: &Case<'_>,
    desk: &mut Desk<S>,
) -> Result<(), Failure> {
    do_first(alloc, commands, desk)?;
    let routes = Routes::new(alloc).ok();
    let marks = case.text("marks");
    for message in messages_in(alloc, case.text("messages"))?.as_slice() {
        serve(
            alloc,
            out,
            routes.as_ref(),
            case.named,
            message,
            marks,
            desk,
        )?;
    }
    Ok(())
}

fn serve<S: Backend>(
    alloc: Global,
    out: &mut String,
    routes: Option<&Routes>,
    named: &[Named],
    message: &str,
    marks: &str,
    desk: &mut Desk<S>,
) -> Result<(), Failure> {
    let (title, sent) = sent_of(alloc, named, message)?;
    if !title.is_empty() {
        writeln!(out, "== {title}")?;
    }
    tell(alloc, out, routes, &sent, marks, desk)
}

fn tell<S: Backend>(
    alloc: Global,
    out: &mut String,
    routes: Option<&Routes>,
    sent: &Sent,
    marks: &str,
    desk: &mut Desk<S>,
) -> Result<(), Failure> {
    let reply = serve_page(alloc, routes, sent, desk)?;
    put_marked(alloc, out, str_of(reply.as_slice()), marks)
}

fn put_marked(alloc: Global, out: &mut String, reply: &str, marks: &str) -> Result<(), Failure> {
    match marks.lines().next() {
        Some(WHOLE) => return put_reply(alloc, out, reply.as_bytes(), Ok(())),
        Some(HEAD) => {
            let (head, _) = reply.split_once("\r\n\r\n").unwrap_or((reply, ""));
            put_reply(alloc, out, head.as_bytes(), Ok(()))?;
            writeln!(out)?;
        }
        _ => (),
    }
    Ok(put_lines(out, reply, marks)?)
}

/// Adds the lines of a reply in which one of the marks stands.
fn put_lines(out: &mut String, reply: &str, marks: &str) -> Result<(), AllocError> {
    for line in reply.lines() {
        if marks.lines().any(|mark| line.contains(mark)) {
            writeln!(out, "{line}")?;
        }
    }
    Ok(())
}
