//! The replies to forms that weren't sent.
ghost use Rattle.std.specs.Prelude.{◌≡◌, IfOk};
ghost use Rattle.std.specs.Option.{option_map};
ghost use Rattle.page_core.specs.Page.{page_bytes};
ghost use Rattle.page_wire.specs.Replies as form;

use crate::replies::{cookie_for, with_cookie, with_page};
use desk_core::Refusal;
use desk_pages::{
    Typed, Unsent, unsent_ask_page, unsent_change_page, unsent_comment_page, unsent_page,
    unsent_reply_page,
};
use hours_core::Minute;
use page_routes::SubmittedForm;
use std::alloc::{AllocError, Global};
use text_core::Text;
use wire_core::code_of_refusal;

/// The reply to a form that the desk refused.
pub(crate) fn refused_reply(
    alloc: Global,
    caller: &str,
    moment: Minute,
    sent: &SubmittedForm,
    refusal: Refusal,
) -> Result<Vec<u8>, AllocError>
    ensures { IfOk result (λ out. out.items
        ≡ form.refused_reply caller.now moment sent.now refusal) }
{
    let status = code_of_refusal(&refusal);
    let why = Unsent::Refused(refusal);
    let page = unsent_form(alloc, caller, moment, sent, &why)?;
    with_page(alloc, status, page)
}

/// The reply to a form that stood on the page of this person, who isn't the caller.
pub(crate) fn other_person_reply(
    alloc: Global,
    caller: &str,
    moment: Minute,
    person: &Text,
    sent: &SubmittedForm,
) -> Result<Vec<u8>, AllocError>
    ensures { IfOk result (λ out. out.items
        ≡ form.other_person_reply caller.now moment person.now sent.now) }
{
    let why = Unsent::OtherPerson(person.clone()?);
    let page = unsent_form(alloc, caller, moment, sent, &why)?;
    with_page(alloc, 409, page)
}

/// The reply to a form that isn't what its form sends.
pub(crate) fn bad_form_reply(
    alloc: Global,
    caller: &str,
    moment: Minute,
    sent: &SubmittedForm,
) -> Result<Vec<u8>, AllocError>
    ensures { IfOk result (λ out. out.items ≡ form.bad_form_reply caller.now moment sent.now) }
{
    let why = Unsent::BadForm;
    let page = unsent_form(alloc, caller, moment, sent, &why)?;
    with_page(alloc, 400, page)
}

/// The reply to one who signs in after a form that wasn't sent, with the cookie.
pub(crate) fn resumed_reply(
    alloc: Global,
    https: bool,
    caller: &str,
    moment: Minute,
    cookie: &Text,
    keep: bool,
    sent: &SubmittedForm,
) -> Result<Vec<u8>, AllocError>
    ensures { IfOk result (λ out. out.items
        ≡ form.resumed_reply https caller.now moment cookie.now keep sent.now) }
{
    let why = Unsent::SignedIn;
    let page = unsent_form(alloc, caller, moment, sent, &why)?;
    let cookie = cookie.clone()?;
    with_cookie(alloc, cookie_for(https, keep, cookie), 200, page)
}

/// The page of a form that wasn't sent, with what was typed into it, and what was chosen.
fn unsent_form(
    alloc: Global,
    caller: &str,
    moment: Minute,
    sent: &SubmittedForm,
    why: &Unsent,
) -> Result<Vec<u8>, AllocError>
    ensures { IfOk result (λ page. page.items
        ≡ page_bytes (form.unsent_form caller.now moment sent.now why.now)) }
{
    match sent {
        SubmittedForm::Queue => unsent_page(alloc, why, caller, moment),
        SubmittedForm::New {
            queue,
            subject,
            requestors,
            text,
            status,
        } => {
            let typed = Typed {
                subject: subject.as_str(),
                text: text.as_str(),
                requestors: requestors.as_str(),
            };
            let (queue, status) = (queue.as_str(), as_str(status));
            unsent_ask_page(alloc, why, caller, moment, queue, typed, status)
        }
        SubmittedForm::Reply {
            id,
            seen,
            text,
            status,
        } => {
            let (text, status) = (text.as_str(), as_str(status));
            unsent_reply_page(alloc, why, caller, moment, *id, *seen, text, status)
        }
        SubmittedForm::Comment { id, text } => {
            unsent_comment_page(alloc, why, caller, moment, *id, text.as_str())
        }
        SubmittedForm::Change { id } => unsent_change_page(alloc, why, caller, moment, *id),
    }
}

/// The status that was chosen.
pub(crate) fn as_str(status: &Option<Text>) -> Option<&str>
    ensures { option_map (λ s. s.now) result ≡ status.now }
{
    match status {
        Some(status) => Some(status.as_str()),
        None => None,
    }
}
