//! Why a form wasn't sent, and what is said of it.
ghost use Rattle.std.specs.Prelude.{◌≡◌, ◌++◌, OnOk};
ghost use Rattle.page_core.specs.Page.{page_bytes};
ghost use Rattle.desk_pages.specs.Unsent as form;

use crate::markup::refused::NOTE;
use crate::refused::{heading_of, put_refusal};
use desk_model::Refusal;
use page_core::{Value, fill};
use std::alloc::AllocError;
use text_core::Text;

/// Why a form wasn't sent.
#[derive(Drop)]
pub enum Unsent {
    /// The desk refused it.
    Refused(Refusal),
    /// It stood on the page of this person, who isn't the caller.
    OtherPerson(Text),
    /// It isn't what its form sends.
    BadForm,
    /// Nobody was signed in; the caller signed in then.
    SignedIn,
    /// It is a reply to entries that the history doesn't have.
    Ahead,
}

/// The heading of what is said of it.
#[tactic(auto, unfolding(crate::specs::Unsent::other_heading, crate::specs::Unsent::bad_heading, crate::specs::Unsent::own_heading))]
pub(crate) fn title_of(why: &Unsent) -> &'static str
    ensures { result.now ≡ form.title_of why.now }
{
    match why {
        Unsent::Refused(refusal) => heading_of(refusal),
        Unsent::OtherPerson(_) => "This form was another person’s",
        Unsent::BadForm => "That form isn’t right",
        Unsent::SignedIn => "You are signed in",
        Unsent::Ahead => waiting_heading(),
    }
}

/// The heading of what is said of a reply that waits.
#[tactic(auto, unfolding(crate::specs::Unsent::waiting_heading))]
pub(crate) fn waiting_heading() -> &'static str
    ensures { result.now ≡ form.waiting_heading }
{
    "Your reply wasn’t sent yet"
}

/// Puts what is said of it to a caller.
pub(crate) fn put_why(out: &mut Vec<u8>, why: &Unsent, caller: &str) -> Result<(), AllocError>
    ensures { OnOk result (out.new.items
        ≡ out.old.items ++ page_bytes (form.said_of why.now caller.now)) }
{
    match why {
        Unsent::Refused(refusal) => put_refusal(out, refusal),
        Unsent::OtherPerson(person) => put_other(out, caller, person.as_str()),
        Unsent::BadForm => put_bad(out),
        Unsent::SignedIn => put_signed_in(out, caller),
        Unsent::Ahead => put_ahead(out),
    }
}

#[tactic(auto, unfolding(crate::specs::Unsent::waiting_heading, crate::specs::Unsent::ahead_note))]
fn put_ahead(out: &mut Vec<u8>) -> Result<(), AllocError>
    ensures { OnOk result (out.new.items ≡ out.old.items ++ page_bytes form.ahead_note) }
{
    let values = [
        Value::Text("Your reply wasn’t sent yet"),
        Value::Text("The history doesn’t go as far as this form says. "),
        Value::Text("Look at the request, and press the button."),
        Value::Text(""),
        Value::Text(""),
        Value::Text(""),
    ];
    fill(out, NOTE, &values, &[])
}

#[tactic(auto, unfolding(crate::specs::Unsent::other_heading, crate::specs::Unsent::other_note))]
fn put_other<'t>(out: &mut Vec<u8>, caller: &'t str, person: &'t str) -> Result<(), AllocError>
    ensures { OnOk result (out.new.items
        ≡ out.old.items ++ page_bytes (form.other_note caller.now person.now)) }
{
    let values = [
        Value::Text("This form was another person’s"),
        Value::Text("You are signed in as "),
        Value::Text(caller),
        Value::Text(" now. This form was "),
        Value::Text(person),
        Value::Text("’s: nothing was sent."),
    ];
    fill(out, NOTE, &values, &[])
}

#[tactic(auto, unfolding(crate::specs::Unsent::bad_heading, crate::specs::Unsent::bad_note))]
fn put_bad(out: &mut Vec<u8>) -> Result<(), AllocError>
    ensures { OnOk result (out.new.items ≡ out.old.items ++ page_bytes form.bad_note) }
{
    let values = [
        Value::Text("That form isn’t right"),
        Value::Text("What was sent isn’t what this form sends, so nothing was done. "),
        Value::Text("Look at it, and try again."),
        Value::Text(""),
        Value::Text(""),
        Value::Text(""),
    ];
    fill(out, NOTE, &values, &[])
}

#[tactic(auto, unfolding(crate::specs::Unsent::own_heading, crate::specs::Unsent::own_note))]
fn put_signed_in(out: &mut Vec<u8>, caller: &str) -> Result<(), AllocError>
    ensures { OnOk result (out.new.items
        ≡ out.old.items ++ page_bytes (form.own_note caller.now)) }
{
    let values = [
        Value::Text("You are signed in"),
        Value::Text("You are signed in as "),
        Value::Text(caller),
        Value::Text(", but nothing was sent yet. Look at what you typed, and press the button."),
        Value::Text(""),
        Value::Text(""),
    ];
    fill(out, NOTE, &values, &[])
}
