//! The form for a new request.
ghost use Rattle.std.specs.Prelude.{◌≡◌, ◌++◌, OnOk};
ghost use Rattle.std.specs.List.{flat_map};
ghost use Rattle.std.specs.Option.{option_map};
ghost use Rattle.page_core.specs.Page.{page_bytes};
ghost use Rattle.desk_pages.specs.Ask as form;

use crate::markup::ask::{ASK, ASK_END, CHOSEN};
use crate::pieces::put_choice;
use page_core::{Value, fill};
use std::alloc::AllocError;
use text_core::Text;

/// What a form for a new request shows.
#[derive(Clone, Copy)]
pub struct Typed<'t> {
    /// What was typed for the subject.
    pub subject: &'t str,
    /// What was typed for the first text.
    pub text: &'t str,
    /// What was typed for the requestors.
    pub requestors: &'t str,
}

/// Puts the form for a new request in a queue, with what was typed. `usual` is the status that is
/// chosen at first of `statuses`.
pub(crate) fn put_ask<'t>(
    out: &mut Vec<u8>,
    queue: &'t str,
    caller: &'t str,
    typed: Typed<'t>,
    usual: &str,
    statuses: &[Text],
) -> Result<(), AllocError>
    ensures { OnOk result (out.new.items ≡ out.old.items ++ page_bytes
        (form.ask queue.now caller.now typed.entry.subject.now typed.entry.text.now
        typed.entry.requestors.now usual.now statuses.now)) }
{
    let any = !statuses.is_empty();
    put_fields(out, queue, caller, typed, any)?;
    put_statuses(out, usual, statuses)?;
    fill(out, ASK_END, &[], &[any])
}

/// Puts the same once more, with the status that was chosen, if one was. It may be let go.
pub(crate) fn put_ask_again<'t>(
    out: &mut Vec<u8>,
    queue: &'t str,
    caller: &'t str,
    typed: Typed<'t>,
    status: Option<&str>,
) -> Result<(), AllocError>
    ensures { OnOk result (out.new.items ≡ out.old.items ++ page_bytes
        (form.ask_again queue.now caller.now typed.entry.subject.now typed.entry.text.now
        typed.entry.requestors.now (option_map (λ s. s.now) status.entry))) }
{
    put_fields(out, queue, caller, typed, status.is_some())?;
    put_chosen(out, status)?;
    fill(out, ASK_END, &[], &[status.is_some()])
}

/// Puts the form up to the statuses, of which there may be any.
fn put_fields<'t>(
    out: &mut Vec<u8>,
    queue: &'t str,
    caller: &'t str,
    typed: Typed<'t>,
    any: bool,
) -> Result<(), AllocError>
    ensures { OnOk result (out.new.items ≡ out.old.items ++ page_bytes
        (form.fields queue.now caller.now typed.entry.subject.now typed.entry.text.now
        typed.entry.requestors.now any)) }
{
    let values = [
        Value::Text(queue),
        Value::Text(caller),
        Value::Text(typed.subject),
        Value::Text(typed.text),
        Value::Text(typed.requestors),
        Value::Text(caller),
    ];
    fill(out, ASK, &values, &[any])
}

#[tactic(auto, unfolding(crate::specs::Ask::chosen))]
fn put_chosen(out: &mut Vec<u8>, status: Option<&str>) -> Result<(), AllocError>
    ensures { OnOk result (out.new.items ≡ out.old.items ++ page_bytes
        (form.chosen (option_map (λ s. s.now) status.entry))) }
{
    match status {
        Some(status) => fill(out, CHOSEN, &[Value::Text(status)], &[]),
        None => Ok(()),
    }
}

fn put_statuses(out: &mut Vec<u8>, usual: &str, statuses: &[Text]) -> Result<(), AllocError>
    ensures { OnOk result (out.new.items
        ≡ out.old.items ++ page_bytes (flat_map (form.status_row usual.now) statuses.now)) }
{
    for status in statuses {
        put_choice(out, status.as_str() == usual, status.as_str())?;
    }
    Ok(())
}
