//! The moves of a request that are offered.
ghost use Rattle.std.specs.Prelude.{◌≡◌, ◌++◌, Some, OnOk};
ghost use Rattle.std.specs.Option.{option_map};
ghost use Rattle.page_core.specs.Page.{page_bytes};
ghost use Rattle.desk_pages.specs.Moves as form;

use crate::markup::moves::{FOLD_END, FOLD_TOP, MOVES_END, MOVES_TOP, OFFER};
use crate::rights::holds_on;
use crate::rows::class_word;
use desk_model::Shown;
use desk_model::lifecycles::reply_target;
use lifecycle_core::Lifecycle;
use page_core::{Value, fill};
use settings_core::Settings;
use std::alloc::AllocError;
use text_core::Text;

/// Puts the form for the moves of a request: a button for each status to which the caller may move it,
/// by the lifecycle and by the right that the move takes. Nothing is put where there is none, or no
/// lifecycle.
pub(crate) fn put_moves(
    out: &mut Vec<u8>,
    id: u32,
    settings: &Settings,
    shown: &Shown,
    caller: &str,
    lifecycle: Option<&Lifecycle>,
) -> Result<(), AllocError>
    ensures { OnOk result (out.new.items ≡ out.old.items ++ page_bytes
        (form.moves id settings.now shown.now caller.now
        (option_map (λ l. l.now) lifecycle.entry))) }
{
    match lifecycle {
        Some(lifecycle) => put_moves_by(out, id, settings, shown, caller, lifecycle),
        None => Ok(()),
    }
}

fn put_moves_by(
    out: &mut Vec<u8>,
    id: u32,
    settings: &Settings,
    shown: &Shown,
    caller: &str,
    lifecycle: &Lifecycle,
) -> Result<(), AllocError>
    ensures { OnOk result (out.new.items ≡ out.old.items ++ page_bytes
        (form.moves id settings.now shown.now caller.now (Some lifecycle.now))) }
{
    if leads_on(settings, shown, caller, lifecycle) {
        put_move_form(out, id, settings, shown, caller, lifecycle)?;
    }
    Ok(())
}

/// Whether the caller may move it anywhere.
pub(crate) fn may_go_on(
    settings: &Settings,
    shown: &Shown,
    caller: &str,
    lifecycle: Option<&Lifecycle>,
) -> bool
    ensures { result ≡ form.may_go_on settings.now shown.now caller.now
        (option_map (λ l. l.now) lifecycle.entry) }
{
    match lifecycle {
        Some(lifecycle) => leads_on(settings, shown, caller, lifecycle),
        None => false,
    }
}

/// Whether the caller may move it to this status.
fn may_go(settings: &Settings, shown: &Shown, caller: &str, lifecycle: &Lifecycle, to: &str) -> bool
    ensures { result ≡ form.may_go settings.now shown.now caller.now lifecycle.now to.now }
{
    let from = shown.row.status.as_str();
    lifecycle.may_move(from, to) && holds_on(settings, shown, caller, lifecycle.right_for(from, to))
}

/// Whether any status is offered.
fn leads_on(settings: &Settings, shown: &Shown, caller: &str, lifecycle: &Lifecycle) -> bool
    ensures { result ≡ form.leads_on lifecycle.now
        (form.may_go settings.now shown.now caller.now lifecycle.now) }
{
    let parts = lifecycle.parts();
    has_offer(settings, shown, caller, lifecycle, parts.initial.as_slice())
        || has_offer(settings, shown, caller, lifecycle, parts.active.as_slice())
        || has_offer(
            settings,
            shown,
            caller,
            lifecycle,
            parts.inactive.as_slice(),
        )
}

/// The first inactive status of a lifecycle, where it lets a request move to that after a reply by no
/// requestor, which may have moved it from this status.
pub(crate) fn closing_after<'l>(lifecycle: Option<&'l Lifecycle>, from: &str) -> Option<&'l str>
    ensures { option_map (λ s. s.now) result
        ≡ form.closing_after (option_map (λ l. l.now) lifecycle.entry) from.now }
{
    match reply_target(lifecycle, false, from) {
        Some(moved) => closing(lifecycle, moved),
        None => closing(lifecycle, from),
    }
}

/// The first inactive status of a lifecycle, where it lets a request move to that from this one.
fn closing<'l>(lifecycle: Option<&'l Lifecycle>, from: &str) -> Option<&'l str>
    ensures { option_map (λ s. s.now) result
        ≡ form.closing (option_map (λ l. l.now) lifecycle.entry) from.now }
{
    match lifecycle {
        Some(lifecycle) => closing_by(lifecycle, from),
        None => None,
    }
}

fn closing_by<'l>(lifecycle: &'l Lifecycle, from: &str) -> Option<&'l str>
    ensures { option_map (λ s. s.now) result
        ≡ form.closing_among lifecycle.entry.now from.now lifecycle.entry.now.inactive }
{
    match lifecycle.parts().inactive.as_slice() {
        [first, ..] if lifecycle.may_move(from, first.as_str()) => Some(first.as_str()),
        _ => None,
    }
}

#[tactic(auto, unfolding(crate::specs::Moves::move_form))]
fn put_move_form(
    out: &mut Vec<u8>,
    id: u32,
    settings: &Settings,
    shown: &Shown,
    caller: &str,
    lifecycle: &Lifecycle,
) -> Result<(), AllocError>
    ensures { OnOk result (out.new.items ≡ out.old.items ++ page_bytes (form.move_form id
        caller.now lifecycle.now (form.may_go settings.now shown.now caller.now lifecycle.now))) }
{
    let parts = lifecycle.parts();
    fill(
        out,
        MOVES_TOP,
        &[Value::Number(id), Value::Text(caller)],
        &[],
    )?;
    put_offers(
        out,
        settings,
        shown,
        caller,
        lifecycle,
        parts.initial.as_slice(),
    )?;
    put_offers(
        out,
        settings,
        shown,
        caller,
        lifecycle,
        parts.active.as_slice(),
    )?;
    put_closings(
        out,
        settings,
        shown,
        caller,
        lifecycle,
        parts.inactive.as_slice(),
    )?;
    fill(out, MOVES_END, &[], &[])
}

/// Puts a button for each of these statuses that is offered.
fn put_offers(
    out: &mut Vec<u8>,
    settings: &Settings,
    shown: &Shown,
    caller: &str,
    lifecycle: &Lifecycle,
    statuses: &[Text],
) -> Result<(), AllocError>
    ensures { OnOk result (out.new.items ≡ out.old.items ++ page_bytes (form.offers lifecycle.now
        (form.may_go settings.now shown.now caller.now lifecycle.now) statuses.now)) }
{
    for status in statuses {
        put_offer(out, settings, shown, caller, lifecycle, status.as_str())?;
    }
    Ok(())
}

/// Puts a button for a status, if the caller may move the request there.
#[tactic(auto, unfolding(crate::specs::Moves::offer))]
fn put_offer(
    out: &mut Vec<u8>,
    settings: &Settings,
    shown: &Shown,
    caller: &str,
    lifecycle: &Lifecycle,
    to: &str,
) -> Result<(), AllocError>
    ensures { OnOk result (out.new.items ≡ out.old.items ++ page_bytes (form.offer lifecycle.now
        (form.may_go settings.now shown.now caller.now lifecycle.now) to.now)) }
{
    let values = [
        Value::Text(to),
        Value::Text(class_word(lifecycle.class(to))),
        Value::Text(to),
    ];
    let may = may_go(settings, shown, caller, lifecycle, to);
    fill(out, OFFER, &values, &[may])
}

/// Puts what is offered of the inactive statuses: those after the first behind a fold, so that a
/// slip of the hand doesn't delete a request.
fn put_closings(
    out: &mut Vec<u8>,
    settings: &Settings,
    shown: &Shown,
    caller: &str,
    lifecycle: &Lifecycle,
    statuses: &[Text],
) -> Result<(), AllocError>
    ensures { OnOk result (out.new.items ≡ out.old.items ++ page_bytes (form.closings lifecycle.now
        (form.may_go settings.now shown.now caller.now lifecycle.now) statuses.now)) }
{
    match statuses.split_first() {
        Some((first, others)) => {
            put_offer(out, settings, shown, caller, lifecycle, first.as_str())?;
            put_folded(out, settings, shown, caller, lifecycle, others)
        }
        None => Ok(()),
    }
}

#[tactic(auto, unfolding(crate::specs::Moves::folded))]
fn put_folded(
    out: &mut Vec<u8>,
    settings: &Settings,
    shown: &Shown,
    caller: &str,
    lifecycle: &Lifecycle,
    statuses: &[Text],
) -> Result<(), AllocError>
    ensures { OnOk result (out.new.items ≡ out.old.items ++ page_bytes (form.folded lifecycle.now
        (form.may_go settings.now shown.now caller.now lifecycle.now) statuses.now)) }
{
    let any = has_offer(settings, shown, caller, lifecycle, statuses);
    fill(out, FOLD_TOP, &[], &[any])?;
    put_offers(out, settings, shown, caller, lifecycle, statuses)?;
    fill(out, FOLD_END, &[], &[any])
}

/// Whether one of these statuses is offered.
fn has_offer(
    settings: &Settings,
    shown: &Shown,
    caller: &str,
    lifecycle: &Lifecycle,
    statuses: &[Text],
) -> bool
    ensures { result ≡ form.has_offer
        (form.may_go settings.now shown.now caller.now lifecycle.now) statuses.now }
{
    statuses.iter().any(|to| may_go(settings, shown, caller, lifecycle, to.as_str()))
}
