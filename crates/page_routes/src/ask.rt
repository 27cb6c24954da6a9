//! What a caller's form asks.

ghost use Rattle.std.specs.Prelude.{◌≡◌, ◌≢◌, Ok, Err, IfErr, IfOk, Some, codes};
ghost use Rattle.browser_core.specs.Form as form;
ghost use Rattle.page_routes.specs.FormArguments.{filled};
ghost use Rattle.page_routes.specs.Visits as visits;

use crate::fault::PageFault;
use crate::filled::{command_in, filled_value, seen_in, typed};
use crate::next::{Next, SubmittedForm};
use crate::page::Page;
use crate::place::Place;
use crate::visit::PageRequest;
use browser_core::{Field, fields_of};
use desk_forms::paths::PathParameter;
use desk_forms::table::CommandForm;
use desk_model::Command;
use std::alloc::{AllocError, Global};
use text_core::Text;

/// What a body asks at a place that a caller posts to.
pub(crate) fn asked_by(
    alloc: Global,
    place: Place,
    caller: Option<Text>,
    body: &[u8],
) -> Result<PageRequest, PageFault>
    ensures ok { IfOk result (λ visit.
        visits.asked_by place caller (form.fields_of body.now) ≡ Ok visit) }
    ensures err { IfErr result (λ fault. fault ≢ PageFault.NoMemory
        → visits.asked_by place caller (form.fields_of body.now) ≡ Err fault) }
{
    let Some(caller) = caller else {
        return Ok(PageRequest::Unknown {
            next: next_of(alloc, place, body)?,
            to_get: false,
        });
    };
    match fields_of(alloc, body)? {
        Some(fields) => asked_at(alloc, caller, place, fields.as_slice()),
        None => Err(PageFault::BadBody),
    }
}

/// Where signing in leads from a place with what its form sent.
fn next_of(alloc: Global, place: Place, body: &[u8]) -> Result<Next, AllocError>
    ensures { IfOk result (λ next. next ≡ visits.next_of place (form.fields_of body.now)) }
{
    match fields_of(alloc, body)? {
        Some(fields) => next_with(alloc, place, fields.as_slice()),
        None => Ok(Next::Page(form_of(place))),
    }
}

/// The same: to the form, where a text is typed into it, and else to where it stands.
pub(crate) fn next_with(alloc: Global, place: Place, fields: &[Field]) -> Result<Next, AllocError>
    ensures { IfOk result (λ next. next ≡ visits.next_of place (Some fields.now)) }
{
    match place {
        Place::Act(CommandForm::Reply, id) => Ok(Next::Form(replied(alloc, id, fields)?)),
        Place::Act(CommandForm::Comment, id) => Ok(Next::Form(commented(alloc, id, fields)?)),
        Place::Page(Page::New(queue)) => Ok(Next::Form(sent_in(alloc, queue, fields)?)),
        place => Ok(Next::Page(form_of(place))),
    }
}

/// Where the form of a place stands.
fn form_of(place: Place) -> Page
    ensures { result ≡ visits.form_of place }
{
    match place {
        Place::Act(_, id) => Page::Request(id),
        Place::Page(page) => page,
        _ => Page::Home,
    }
}

fn asked_at(
    alloc: Global,
    caller: Text,
    place: Place,
    fields: &[Field],
) -> Result<PageRequest, PageFault>
    ensures ok { IfOk result (λ visit. visits.asked_at caller place fields.now ≡ Ok visit) }
    ensures err { IfErr result (λ fault. fault ≢ PageFault.NoMemory
        → visits.asked_at caller place fields.now ≡ Err fault) }
{
    match place {
        Place::Queues => {
            let command = command_in(
                alloc,
                CommandForm::OpenQueue,
                PathParameter::Nothing,
                fields,
            )?;
            Ok(acted(alloc, fields, caller, SubmittedForm::Queue, command)?)
        }
        Place::Act(act, id) => {
            let command = command_in(alloc, act, PathParameter::Request(id), fields)?;
            let sent = sent_on(alloc, act, id, fields)?;
            Ok(acted(alloc, fields, caller, sent, command)?)
        }
        Place::Page(Page::New(queue)) => {
            let command = command_in(
                alloc,
                CommandForm::Create,
                PathParameter::Queue(queue.as_str()),
                fields,
            )?;
            let sent = sent_in(alloc, queue, fields)?;
            Ok(acted(alloc, fields, caller, sent, command)?)
        }
        _ => Err(PageFault::BadMethod { posts: false }),
    }
}

/// What a form asks that stood on some page: a command only on the caller's own, and with just its
/// fields.
fn acted(
    alloc: Global,
    fields: &[Field],
    caller: Text,
    sent: SubmittedForm,
    command: Option<Command>,
) -> Result<PageRequest, AllocError>
    ensures { IfOk result (λ visit.
        visit ≡ visits.acted (visits.person_in fields.now) caller sent command) }
{
    match filled_value(fields, "me") {
        Some(person) => sent_from(alloc, person, caller, sent, command),
        None => Ok(PageRequest::BadForm { caller, sent }),
    }
}

/// The same on the page of this person.
fn sent_from(
    alloc: Global,
    person: &str,
    caller: Text,
    sent: SubmittedForm,
    command: Option<Command>,
) -> Result<PageRequest, AllocError>
    ensures { IfOk result (λ visit. visit ≡ visits.sent_from person.now caller sent command) }
{
    if person == caller.as_str() {
        return Ok(sent_by(caller, sent, command));
    }
    let person = Text::new(alloc, person)?;
    Ok(PageRequest::OtherPerson {
        caller,
        person,
        sent,
    })
}

/// The same on the caller's own page.
fn sent_by(caller: Text, sent: SubmittedForm, command: Option<Command>) -> PageRequest
    ensures { result ≡ visits.sent_by caller sent command }
{
    match command {
        Some(command) => PageRequest::Act {
            caller,
            command,
            sent,
        },
        None => PageRequest::BadForm { caller, sent },
    }
}

/// What was sent with a form on a request.
fn sent_on(
    alloc: Global,
    act: CommandForm,
    id: u32,
    fields: &[Field],
) -> Result<SubmittedForm, AllocError>
    ensures { IfOk result (λ sent. sent ≡ visits.sent_on act id fields.now) }
{
    match act {
        CommandForm::Reply => replied(alloc, id, fields),
        CommandForm::Comment => commented(alloc, id, fields),
        _ => Ok(SubmittedForm::Change { id }),
    }
}

/// What was sent with the form for a comment.
fn commented(alloc: Global, id: u32, fields: &[Field]) -> Result<SubmittedForm, AllocError>
    ensures { IfOk result (λ sent. sent ≡ visits.sent_on CommandForm.Comment id fields.now) }
{
    let text = Text::new(alloc, typed(fields, "text"))?;
    Ok(SubmittedForm::Comment { id, text })
}

/// What was sent with the form for a reply.
fn replied(alloc: Global, id: u32, fields: &[Field]) -> Result<SubmittedForm, AllocError>
    ensures { IfOk result (λ sent. sent ≡ visits.sent_on CommandForm.Reply id fields.now) }
{
    let text = Text::new(alloc, typed(fields, "text"))?;
    let status = chosen_status(alloc, fields)?;
    Ok(SubmittedForm::Reply {
        id,
        seen: seen_in(fields),
        text,
        status,
    })
}

/// The status that was chosen, where one was.
fn chosen_status(alloc: Global, fields: &[Field]) -> Result<Option<Text>, AllocError>
    ensures { IfOk result (λ status.
        status ≡ filled (form.value_of (codes "status") fields.now)) }
{
    match filled_value(fields, "status") {
        Some(status) => Ok(Some(Text::new(alloc, status)?)),
        None => Ok(None),
    }
}

/// What was sent with the form for a new request.
fn sent_in(alloc: Global, queue: Text, fields: &[Field]) -> Result<SubmittedForm, AllocError>
    ensures { IfOk result (λ sent. sent ≡ visits.sent_in queue fields.now) }
{
    let subject = Text::new(alloc, typed(fields, "subject"))?;
    let requestors = Text::new(alloc, typed(fields, "requestors"))?;
    let text = Text::new(alloc, typed(fields, "text"))?;
    let status = chosen_status(alloc, fields)?;
    Ok(SubmittedForm::New {
        queue,
        subject,
        requestors,
        text,
        status,
    })
}
