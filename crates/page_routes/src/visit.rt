//! What a message asks of the pages.

ghost use Rattle.std.specs.Prelude.{◌≡◌, ◌≢◌, [], Ok, Err, IfErr, IfOk, None, Some};
ghost use Rattle.httparse.specs.Grammar.{RequestHead};
ghost use Rattle.message_core.specs.Head.{StartsWith};
ghost use Rattle.message_core.specs.Request.{values_in};
ghost use Rattle.page_routes.specs.Visits as visits;

use crate::ask::asked_by;
use crate::fault::PageFault;
use crate::lines::{caller_of, is_own};
use crate::next::{Next, SubmittedForm};
use crate::page::Page;
use crate::place::{Place, method_named, place_at, takes_post};
use crate::sign::signing;
use desk_forms::paths::Method;
use desk_model::Command;
use message_core::Request;
use settings_core::Settings;
use std::alloc::{AllocError, Global};
use text_core::Text;

/// What a message asks of the pages.
#[derive(Drop)]
pub enum PageRequest {
    /// GET of `/style.css`: the style sheet.
    Style,
    /// GET of `/sign-in`: its page, which leads to `/`.
    SignIn,
    /// POST of `/sign-in` with a token of the settings: 303 to the page, with the cookie of a session
    /// of 12 hours, or of 30 days where `keep` was ticked.
    SignedIn {
        https: bool,
        cookie: Text,
        keep: bool,
        next: Page,
    },
    /// The same with what had been typed into a form: its page, with that cookie. Nothing is done.
    Resumed {
        https: bool,
        caller: Text,
        cookie: Text,
        keep: bool,
        sent: SubmittedForm,
    },
    /// POST of `/sign-in` with no token of the settings: its page once more, which says so.
    NotSignedIn {
        next: Next,
    },
    /// POST of `/sign-in` at a minute that is no moment of the desk: the page that tells so.
    NoMoment,
    /// POST of `/sign-out`: 303 to `/sign-in`, and the cookie is cleared.
    SignOut {
        https: bool,
    },
    /// GET of a place that only takes POST: 303 to where its form stands. Of `/desk/go`: 303 to what
    /// was typed into the box in the head.
    Leads(Page),
    /// Nobody's cookie, at any other place, or a search that another site opens: the sign-in page,
    /// which leads to this one, or to a form with what was typed into it. It is answered at that very
    /// page to a GET, and elsewhere to a POST.
    Unknown {
        next: Next,
        to_get: bool,
    },
    /// GET of a page.
    Look {
        caller: Text,
        page: Page,
    },
    /// POST of any other place by a form of another person's page: nothing is done, and the page that
    /// says so has what was typed.
    OtherPerson {
        caller: Text,
        person: Text,
        sent: SubmittedForm,
    },
    /// POST of any other place by a form that doesn't say whose page it was, or that hasn't just the
    /// fields of its place, each once and of its form: the same.
    BadForm {
        caller: Text,
        sent: SubmittedForm,
    },
    /// POST of any other place: a command.
    Act {
        caller: Text,
        command: Command,
        sent: SubmittedForm,
    },
}

/// What a message asks of the pages at a minute since 1970-01-01 00:00 UTC, as the lines of its
/// head say. Whether browsers come by HTTPS says which cookie is read and given.
///
/// `NoRoute` where its path is no place, `BadMethod` where the place doesn't have its method,
/// `OtherSite` where a post comes from another site, and `BadBody` where a body isn't that of a form, or
/// signing in sends other fields than its form: the first of these that holds. A form sends as `me` the
/// person on whose page it stood, and a reply as `seen` the number of the last entry that the page
/// showed, of 1 to 10 digits and at most 4,294,967,295. Where `me` is another person that is asked for,
/// and where a field is missing, stands there twice or isn't of that form, a `BadForm`: with what was
/// typed, and nothing is done. Whoever the cookie is, it is looked at before the body, but not for
/// signing in and out. `NoMemory` may stand in place of any other answer.
pub fn visit_of(
    alloc: Global,
    settings: &Settings,
    https: bool,
    at: u32,
    request: &Request,
) -> Result<PageRequest, PageFault>
    ensures ok { (h : RequestHead) → StartsWith request.now.head h [] → IfOk result (λ visit.
        visits.visit_of https settings.now at request.now.message (values_in h) ≡ Ok visit) }
    ensures err { (h : RequestHead) → StartsWith request.now.head h [] → IfErr result (λ fault.
        fault ≢ PageFault.NoMemory
        → visits.visit_of https settings.now at request.now.message (values_in h) ≡ Err fault) }
{
    match place_at(alloc, request.message.target.as_slice())? {
        Some(place) => visited(alloc, settings, https, at, request, place),
        None => Err(PageFault::NoRoute),
    }
}

/// Whether a message tries to sign in by a token that the settings don't know. `AllocError` may stand
/// in place of any answer.
pub fn is_wrong_token(
    alloc: Global,
    settings: &Settings,
    https: bool,
    at: u32,
    request: &Request,
) -> Result<bool, AllocError>
    ensures { (h : RequestHead) → StartsWith request.now.head h [] → IfOk result (λ wrong.
        wrong ≡ visits.is_wrong_token https settings.now at request.now.message (values_in h)) }
{
    match visit_of(alloc, settings, https, at, request) {
        Ok(visit) => Ok(is_not_signed_in(&visit)),
        Err(PageFault::NoMemory) => Err(AllocError),
        Err(_) => Ok(false),
    }
}

fn is_not_signed_in(visit: &PageRequest) -> bool
    ensures { result ≡ visits.is_not_signed_in (Ok visit.now) }
{
    match visit {
        PageRequest::NotSignedIn { .. } => true,
        _ => false,
    }
}

/// What it asks at a place.
fn visited(
    alloc: Global,
    settings: &Settings,
    https: bool,
    at: u32,
    request: &Request,
    place: Place,
) -> Result<PageRequest, PageFault>
    ensures ok { (h : RequestHead) → StartsWith request.now.head h [] → IfOk result (λ visit.
        visits.visited_at https settings.now at request.now.message (values_in h) (Some place)
        ≡ Ok visit) }
    ensures err { (h : RequestHead) → StartsWith request.now.head h [] → IfErr result (λ fault.
        fault ≢ PageFault.NoMemory → visits.visited_at https settings.now at request.now.message
        (values_in h) (Some place) ≡ Err fault) }
{
    let posts = takes_post(&place);
    match method_named(request.message.method.as_slice()) {
        Some(Method::Get) => Ok(got(alloc, settings, https, at, request, place)?),
        Some(Method::Post) => {
            if posts {
                posted_from(alloc, settings, https, at, request, place)
            } else {
                Err(PageFault::BadMethod { posts: false })
            }
        }
        None => Err(PageFault::BadMethod { posts }),
    }
}

/// What a GET asks at a place.
fn got(
    alloc: Global,
    settings: &Settings,
    https: bool,
    at: u32,
    request: &Request,
    place: Place,
) -> Result<PageRequest, AllocError>
    ensures { (h : RequestHead) → StartsWith request.now.head h []
        → IfOk result (λ visit. visit ≡ visits.got https settings.now at (values_in h) place) }
{
    match place {
        Place::Style => Ok(PageRequest::Style),
        Place::SignIn => Ok(PageRequest::SignIn),
        Place::Page(page) => {
            let caller = looker(alloc, settings, https, at, request, &page)?;
            Ok(looked(page, caller))
        }
        Place::Go(page) => Ok(PageRequest::Leads(page)),
        Place::Act(_, id) => Ok(PageRequest::Leads(Page::Request(id))),
        _ => Ok(PageRequest::Leads(Page::Home)),
    }
}

/// Who looks at a page. A search that another site opens is looked at by nobody, so that no site
/// learns from how long one takes.
fn looker(
    alloc: Global,
    settings: &Settings,
    https: bool,
    at: u32,
    request: &Request,
    page: &Page,
) -> Result<Option<Text>, AllocError>
    ensures { (h : RequestHead) → StartsWith request.now.head h [] → IfOk result (λ caller.
        caller ≡ visits.looker https settings.now at (values_in h) page.now) }
{
    if is_search(page) {
        searcher(alloc, settings, https, at, request)
    } else {
        caller_of(alloc, settings, https, at, request)
    }
}

fn searcher(
    alloc: Global,
    settings: &Settings,
    https: bool,
    at: u32,
    request: &Request,
) -> Result<Option<Text>, AllocError>
    ensures { (h : RequestHead) → StartsWith request.now.head h [] → IfOk result (λ caller.
        caller ≡ visits.searcher https settings.now at (values_in h)) }
{
    if is_own(alloc, request)? {
        caller_of(alloc, settings, https, at, request)
    } else {
        Ok(None)
    }
}

fn is_search(page: &Page) -> bool
    ensures { result ≡ visits.is_search page.now }
{
    matches!(page, Page::Find { .. })
}

fn looked(page: Page, caller: Option<Text>) -> PageRequest
    ensures { result ≡ visits.looked page caller }
{
    match caller {
        Some(caller) => PageRequest::Look { caller, page },
        None => PageRequest::Unknown {
            next: Next::Page(page),
            to_get: true,
        },
    }
}

/// What a post asks at a place that takes one, wherever it comes from.
fn posted_from(
    alloc: Global,
    settings: &Settings,
    https: bool,
    at: u32,
    request: &Request,
    place: Place,
) -> Result<PageRequest, PageFault>
    ensures ok { (h : RequestHead) → StartsWith request.now.head h [] → IfOk result (λ visit.
        visits.posted_from https settings.now at (values_in h) request.now.message.body place
        ≡ Ok visit) }
    ensures err { (h : RequestHead) → StartsWith request.now.head h [] → IfErr result (λ fault.
        fault ≢ PageFault.NoMemory → visits.posted_from https settings.now at (values_in h)
        request.now.message.body place ≡ Err fault) }
{
    if !is_own(alloc, request)? {
        return Err(PageFault::OtherSite);
    }
    posted(alloc, settings, https, at, request, place)
}

/// What a post of the desk's own asks at a place that takes one.
fn posted(
    alloc: Global,
    settings: &Settings,
    https: bool,
    at: u32,
    request: &Request,
    place: Place,
) -> Result<PageRequest, PageFault>
    ensures ok { (h : RequestHead) → StartsWith request.now.head h [] → IfOk result (λ visit.
        visits.posted https settings.now at (values_in h) request.now.message.body place ≡ Ok visit) }
    ensures err { (h : RequestHead) → StartsWith request.now.head h [] → IfErr result (λ fault.
        fault ≢ PageFault.NoMemory → visits.posted https settings.now at (values_in h)
        request.now.message.body place ≡ Err fault) }
{
    match place {
        Place::SignIn => signing(alloc, settings, https, at, request.message.body.as_slice()),
        Place::SignOut => Ok(PageRequest::SignOut { https }),
        place => {
            let caller = caller_of(alloc, settings, https, at, request)?;
            asked_by(alloc, place, caller, request.message.body.as_slice())
        }
    }
}
