//! The reply with the page on which one signs in.
ghost use Rattle.std.specs.Prelude.{◌≡◌, IfOk, [], unwrap_or};
ghost use Rattle.http.specs.StatusCode.{IsStatusCode};
ghost use Rattle.page_core.specs.Page.{page_bytes};
ghost use Rattle.desk_pages.specs.SignIn as asking;
ghost use Rattle.page_wire.specs.Replies as form;

use crate::replies::with_page;
use desk_pages::{Typed, kept_page, sign_in_page};
use page_routes::{Next, Page, SubmittedForm, form_path, page_path};
use std::alloc::{AllocError, Global};
use text_core::Text;

/// The reply with the page on which one signs in, which leads to a page, or to a form with what was
/// typed into it.
pub(crate) fn sign_in(
    alloc: Global,
    status: u16,
    next: &Next,
    unknown: bool,
    elsewhere: bool,
) -> Result<Vec<u8>, AllocError>
    requires { IsStatusCode status }
    ensures { IfOk result (λ out. out.items
        ≡ form.sign_in status next.now unknown elsewhere) }
{
    match next {
        Next::Page(page) => sign_in_to(alloc, status, page, unknown, elsewhere),
        Next::Form(sent) => {
            let page = sign_in_form(alloc, sent, unknown)?;
            with_page(alloc, status, page)
        }
    }
}

/// The reply with that page, which leads to this page.
pub(crate) fn sign_in_to(
    alloc: Global,
    status: u16,
    next: &Page,
    unknown: bool,
    elsewhere: bool,
) -> Result<Vec<u8>, AllocError>
    requires { IsStatusCode status }
    ensures { IfOk result (λ out. out.items
        ≡ form.sign_in status (Next.Page next.now) unknown elsewhere) }
{
    let place = page_path(alloc, next)?;
    let page = sign_in_page(alloc, place.as_str(), unknown, elsewhere)?;
    with_page(alloc, status, page)
}

/// The page on which one signs in after a form that wasn't sent.
fn sign_in_form(alloc: Global, sent: &SubmittedForm, unknown: bool) -> Result<Vec<u8>, AllocError>
    ensures { IfOk result (λ page. page.items
        ≡ page_bytes (form.sign_in_form sent.now unknown)) }
{
    let place = form_path(alloc, sent)?;
    let next = place.as_str();
    match sent {
        SubmittedForm::New {
            subject,
            requestors,
            text,
            status,
            ..
        } => {
            let typed = Typed {
                subject: subject.as_str(),
                text: text.as_str(),
                requestors: requestors.as_str(),
            };
            kept_page(alloc, next, typed, 0, chosen(status), unknown)
        }
        SubmittedForm::Reply {
            seen,
            text,
            status,
            ..
        } => kept_text(alloc, next, *seen, text.as_str(), chosen(status), unknown),
        SubmittedForm::Comment { text, .. } => {
            kept_text(alloc, next, 0, text.as_str(), "", unknown)
        }
        SubmittedForm::Queue | SubmittedForm::Change { .. } => {
            sign_in_page(alloc, next, unknown, false)
        }
    }
}

/// The page with which a text alone comes along, with the number of the last entry that was seen, and a
/// status.
fn kept_text(
    alloc: Global,
    next: &str,
    seen: u32,
    text: &str,
    status: &str,
    unknown: bool,
) -> Result<Vec<u8>, AllocError>
    ensures { IfOk result (λ out. out.items
        ≡ page_bytes (asking.kept_page next.now [] [] seen text.now status.now unknown)) }
{
    let typed = Typed {
        subject: "",
        text,
        requestors: "",
    };
    kept_page(alloc, next, typed, seen, status, unknown)
}

/// The status that was chosen, and nothing where none was.
pub(crate) fn chosen(status: &Option<Text>) -> &str
    ensures { result.now ≡ unwrap_or status.now [] }
{
    match status {
        Some(status) => status.as_str(),
        None => "",
    }
}
