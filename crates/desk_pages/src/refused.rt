//! What is said of a refusal.
ghost use Rattle.std.specs.Prelude.{◌≡◌, ◌++◌, OnOk};
ghost use Rattle.page_core.specs.Page.{page_bytes};
ghost use Rattle.desk_pages.specs.Refused as form;

use crate::markup::refused::{CRUMB, NOTICE, TO_QUEUE, TO_REQUEST};
use desk_model::Refusal;
use page_core::{Value, fill};
use std::alloc::AllocError;

/// The heading of a refusal.
#[tactic(auto, unfolding(crate::specs::Refused::heading_of))]
pub(crate) fn heading_of(refusal: &Refusal) -> &'static str
    ensures { result.now ≡ form.heading_of refusal.now }
{
    match refusal {
        Refusal::UnknownCaller => "Who are you?",
        Refusal::BadMoment => "The clock is wrong",
        Refusal::BadText => "This text can’t be taken",
        Refusal::NotFound => "Not found",
        Refusal::UnknownName => "Unknown name",
        Refusal::Denied(_) => "Not allowed",
        Refusal::NoChange => "It is so already",
        Refusal::NoTransition => "There is no such move",
        Refusal::OpenDependency => "Another request comes first",
        Refusal::Owned => "Somebody owns it",
        Refusal::NotOwned => "Nobody owns it",
        Refusal::NotOwner => "It isn’t yours",
        Refusal::Exists => "There is one already",
        Refusal::SelfLink => "That is the same request",
        Refusal::Full => "There is no room",
        Refusal::Unavailable => "Not now",
    }
}

/// What is said of it; where a right is lacking, what stands before its name.
#[tactic(auto, unfolding(crate::specs::Refused::front_of))]
fn front_of(refusal: &Refusal) -> &'static str
    ensures { result.now ≡ form.front_of refusal.now }
{
    match refusal {
        Refusal::UnknownCaller => "This token isn’t known here: sign in again.",
        Refusal::BadMoment =>
            "The server’s clock stands before the year 2000 or after 2099. Please tell whoever runs the desk.",
        Refusal::BadText =>
            "A subject is one line of 1 to 200 characters, a reply or a comment has 1 to 20,000, a queue’s name is 1 to 20 of a to z, 0 to 9, - and _, and none has control characters.",
        Refusal::NotFound => "There is no such request or queue, or it isn’t one that you may see.",
        Refusal::UnknownName =>
            "The desk knows no person, status, level or lifecycle of that name: look at how it is spelled.",
        Refusal::Denied(_) => "This takes the right ",
        Refusal::NoChange => "The desk is already as you asked, so there was nothing to do.",
        Refusal::NoTransition =>
            "Requests of this queue don’t go from the present status to that one, and none is filed in it.",
        Refusal::OpenDependency =>
            "This one depends on a request that is still open, maybe one that you can’t see, and can’t be closed before it.",
        Refusal::Owned =>
            "Another person owns this request, so it can’t be taken, but it may be stolen.",
        Refusal::NotOwned => "Nobody owns this request, so there is nobody to take it from.",
        Refusal::NotOwner =>
            "Another person owns this request, and only its owner can let go of it.",
        Refusal::Exists => "A queue of that name is open.",
        Refusal::SelfLink => "A request can’t be linked with itself.",
        Refusal::Full =>
            "The desk has no room for another queue or request, or this request’s history for another entry.",
        Refusal::Unavailable =>
            "The desk couldn’t do this just now, and nothing was changed: please try again in a moment.",
    }
}

/// The same of the second of two commands, after the first was done: it isn't said that nothing was
/// changed.
#[tactic(auto, unfolding(crate::specs::Refused::front_after))]
fn front_after(refusal: &Refusal) -> &'static str
    ensures { result.now ≡ form.front_after refusal.now }
{
    match refusal {
        Refusal::Unavailable => "The desk couldn’t do this just now: please try again in a moment.",
        _ => front_of(refusal),
    }
}

/// The right that is lacking.
fn right_of(refusal: &Refusal) -> &str
    ensures { result.now ≡ form.right_of refusal.entry.now }
{
    match refusal {
        Refusal::Denied(right) => right.as_str(),
        _ => "",
    }
}

/// What stands after its name.
#[tactic(auto, unfolding(crate::specs::Refused::back_of))]
fn back_of(refusal: &Refusal) -> &'static str
    ensures { result.now ≡ form.back_of refusal.now }
{
    match refusal {
        Refusal::Denied(_) =>
            ", which you don’t hold here, or which the person lacks to whom you would give the request.",
        _ => "",
    }
}

/// Puts why something is refused, in words and by number and name.
pub(crate) fn put_refusal(out: &mut Vec<u8>, refusal: &Refusal) -> Result<(), AllocError>
    ensures { OnOk result (out.new.items
        ≡ out.old.items ++ page_bytes (form.notice_of refusal.now)) }
{
    put_notice(out, front_of(refusal), refusal)
}

/// Puts the same of the second of two commands, after the first was done.
pub(crate) fn put_refusal_after(out: &mut Vec<u8>, refusal: &Refusal) -> Result<(), AllocError>
    ensures { OnOk result (out.new.items
        ≡ out.old.items ++ page_bytes (form.notice_after refusal.now)) }
{
    put_notice(out, front_after(refusal), refusal)
}

#[tactic(auto, unfolding(crate::specs::Refused::notice))]
fn put_notice<'t>(out: &mut Vec<u8>, front: &'t str, refusal: &'t Refusal) -> Result<(), AllocError>
    ensures { OnOk result (out.new.items
        ≡ out.old.items ++ page_bytes (form.notice front.now refusal.now)) }
{
    let values = [
        Value::Text(heading_of(refusal)),
        Value::Text(front),
        Value::Text(right_of(refusal)),
        Value::Text(back_of(refusal)),
        Value::Number(u32::from(refusal.number())),
        Value::Text(refusal.name()),
        Value::Text(right_of(refusal)),
    ];
    fill(out, NOTICE, &values, &[is_denied(refusal)])
}

fn is_denied(refusal: &Refusal) -> bool
    ensures { result ≡ form.is_denied refusal.now }
{
    matches!(refusal, Refusal::Denied(_))
}

/// Puts the way to the request.
#[tactic(auto, unfolding(crate::specs::Refused::crumb))]
pub(crate) fn put_crumb(out: &mut Vec<u8>, id: u32) -> Result<(), AllocError>
    ensures { OnOk result (out.new.items ≡ out.old.items ++ page_bytes (form.crumb id)) }
{
    fill(out, CRUMB, &[Value::Number(id), Value::Number(id)], &[])
}

/// Puts the way back to the request.
#[tactic(auto, unfolding(crate::specs::Refused::to_request))]
pub(crate) fn put_to_request(out: &mut Vec<u8>, id: u32) -> Result<(), AllocError>
    ensures { OnOk result (out.new.items ≡ out.old.items ++ page_bytes (form.to_request id)) }
{
    fill(
        out,
        TO_REQUEST,
        &[Value::Number(id), Value::Number(id)],
        &[],
    )
}

/// Puts the way back to the queue, or to the queues if it isn't there.
#[tactic(auto, unfolding(crate::specs::Refused::to_queue))]
pub(crate) fn put_to_queue(out: &mut Vec<u8>, found: bool, queue: &str) -> Result<(), AllocError>
    ensures { OnOk result (out.new.items
        ≡ out.old.items ++ page_bytes (form.to_queue found queue.now)) }
{
    fill(
        out,
        TO_QUEUE,
        &[Value::Text(queue), Value::Text(queue)],
        &[found, !found],
    )
}
