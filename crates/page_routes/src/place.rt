//! The places of the pages.

ghost use Rattle.std.specs.Prelude.{◌≡◌, [], codes, unwrap_or, IfOk};
ghost use Rattle.std.specs.List.{list_all};
ghost use Rattle.std.specs.Option.{option_and_then, option_map};
ghost use Rattle.browser_core.specs.Texts as texts;
ghost use Rattle.desk_forms.specs.Number.{number_of};
ghost use Rattle.page_routes.specs.Fronts as fronts;
ghost use Rattle.page_routes.specs.Places as places;

use crate::fronts::{begins, behind};
use crate::head_box::box_page;
use crate::page::Page;
use browser_core::{cut, text_in};
use desk_forms::number_of_word;
use desk_forms::paths::Method;
use desk_forms::table::CommandForm;
use find_form::{Start, place_in};
use std::alloc::{AllocError, Global};
use text_core::{Text, is_name};

/// A place of the pages: what the path of a message names.
#[derive(Drop)]
pub enum Place {
    /// The style sheet.
    Style,
    /// Where one signs in.
    SignIn,
    /// Where one signs out.
    SignOut,
    /// Where the box in the head of each page leads.
    Go(Page),
    /// To open a queue.
    Queues,
    /// A page that GET shows.
    Page(Page),
    /// An act on a request.
    Act(CommandForm, u32),
}

/// What paths of queues begin with.
const QUEUES: &str = "/desk/queues/";

/// What paths of requests begin with.
const REQUESTS: &str = "/desk/requests/";

/// What paths of a search begin with that begin after a place, and before one.
const AFTER: &str = "/desk/find/after/";

const BEFORE: &str = "/desk/find/before/";

/// Whether a target is a place of the pages, up to its first `?`: `/`, `/sign-in`, `/sign-out`,
/// `/style.css`, `/desk`, and all that begins with `/desk/`. All others are the interface's.
pub fn is_page_place(target: &[u8]) -> bool
    ensures { result ≡ places.is_page_path (places.path_in target.now) }
{
    let path = path_in(target);
    path == b"/".as_slice()
        || path == b"/sign-in".as_slice()
        || path == b"/sign-out".as_slice()
        || path == b"/style.css".as_slice()
        || path == b"/desk".as_slice()
        || begins(path, "/desk/")
}

/// The target up to the first question mark.
pub(crate) fn path_in(target: &[u8]) -> &[u8]
    ensures { result.now ≡ places.path_in target.now }
{
    cut(target, b'?').0
}

/// The place of a path that names nothing.
fn fixed(path: &[u8]) -> Option<Place>
    ensures { result ≡ places.fixed path.now }
{
    if path == b"/".as_slice() {
        Some(Place::Page(Page::Home))
    } else if path == b"/sign-in".as_slice() {
        Some(Place::SignIn)
    } else if path == b"/sign-out".as_slice() {
        Some(Place::SignOut)
    } else if path == b"/style.css".as_slice() {
        Some(Place::Style)
    } else if path == b"/desk/overdue".as_slice() {
        Some(Place::Page(Page::Overdue))
    } else if path == b"/desk/workload".as_slice() {
        Some(Place::Page(Page::Workload))
    } else if path == b"/desk/queues".as_slice() {
        Some(Place::Queues)
    } else {
        None
    }
}

/// An act on a request.
fn act_named(word: &str) -> Option<CommandForm>
    ensures { result ≡ places.act_named word.now }
{
    match word {
        "status" => Some(CommandForm::SetStatus),
        "take" => Some(CommandForm::Take),
        "steal" => Some(CommandForm::Steal),
        "untake" => Some(CommandForm::Untake),
        "give" => Some(CommandForm::Give),
        "reply" => Some(CommandForm::Reply),
        "comment" => Some(CommandForm::Comment),
        "watch" => Some(CommandForm::Watch),
        "unwatch" => Some(CommandForm::Unwatch),
        "link" => Some(CommandForm::Link),
        "unlink" => Some(CommandForm::Unlink),
        "level" => Some(CommandForm::SetLevel),
        _ => None,
    }
}

fn act_in(word: &[u8]) -> Option<CommandForm>
    ensures { result ≡ option_and_then places.act_named (texts.text_in word.now) }
{
    match text_in(word) {
        Some(word) => act_named(word),
        None => None,
    }
}

fn name_in(bytes: &[u8]) -> Option<&str>
    ensures { option_map (λ n. n.now) result
        ≡ option_and_then places.name_in (texts.text_in bytes.now) }
{
    match text_in(bytes) {
        Some(name) => { if is_name(name) { Some(name) } else { None } }
        None => None,
    }
}

fn number_in(bytes: &[u8]) -> Option<u32>
    ensures { result ≡ option_and_then number_of (texts.text_in bytes.now) }
{
    match text_in(bytes) {
        Some(word) => number_of_word(word),
        None => None,
    }
}

/// The page of a queue, or that for a new request in it.
fn queue_page(alloc: Global, name: &str, rest: Option<&[u8]>) -> Result<Option<Place>, AllocError>
    ensures { IfOk result (λ place.
        place ≡ places.queue_page name.now (option_map (λ r. r.now) rest.entry)) }
{
    let Some(word) = rest else {
        return Ok(Some(Place::Page(Page::Queue(Text::new(alloc, name)?))));
    };
    if word == b"new".as_slice() {
        Ok(Some(Place::Page(Page::New(Text::new(alloc, name)?))))
    } else {
        Ok(None)
    }
}

/// The place of what stands behind `/desk/queues/`.
fn in_queues(alloc: Global, rest: &[u8]) -> Result<Option<Place>, AllocError>
    ensures { IfOk result (λ place. place ≡ places.in_queues rest.now) }
{
    let (name, more) = cut(rest, b'/');
    match name_in(name) {
        Some(name) => queue_page(alloc, name, more),
        None => Ok(None),
    }
}

/// The page of a request, or an act on it.
fn request_page(id: u32, rest: Option<&[u8]>) -> Option<Place>
    ensures { result ≡ places.request_page id (option_map (λ r. r.now) rest.entry) }
{
    let Some(word) = rest else {
        return Some(Place::Page(Page::Request(id)));
    };
    match act_in(word) {
        Some(act) => Some(Place::Act(act, id)),
        None => None,
    }
}

/// The place of what stands behind `/desk/requests/`.
fn in_requests(rest: &[u8]) -> Option<Place>
    ensures { result ≡ places.in_requests rest.now }
{
    let (number, more) = cut(rest, b'/');
    match number_in(number) {
        Some(id) => request_page(id, more),
        None => None,
    }
}

/// The place of a path that names a queue or a request.
fn below(alloc: Global, path: &[u8]) -> Result<Option<Place>, AllocError>
    ensures { IfOk result (λ place. place ≡ places.below
        (fronts.behind (codes "/desk/queues/") path.now)
        (fronts.behind (codes "/desk/requests/") path.now)) }
{
    if let Some(rest) = behind(QUEUES, path) {
        return in_queues(alloc, rest);
    }
    match behind(REQUESTS, path) {
        Some(rest) => Ok(in_requests(rest)),
        None => Ok(None),
    }
}

/// The place of a target, if it has one: that of its path, and for a search or the box in the head
/// that of what stands behind its question mark too.
pub(crate) fn place_at(alloc: Global, target: &[u8]) -> Result<Option<Place>, AllocError>
    ensures { IfOk result (λ place. place ≡ places.place_at target.now) }
{
    let (path, query) = cut(target, b'?');
    match place_of(alloc, path)? {
        Some(place) => Ok(Some(place)),
        None => queried(alloc, path, query_of(query)),
    }
}

/// The place of a path that has a query.
fn queried(alloc: Global, path: &[u8], query: &[u8]) -> Result<Option<Place>, AllocError>
    ensures { IfOk result (λ place. place ≡ places.queried path.now query.now) }
{
    if path == b"/desk/go".as_slice() {
        go_at(alloc, query)
    } else {
        find_at(alloc, path, query)
    }
}

/// Where the box in the head leads, if the query can stand in an address.
fn go_at(alloc: Global, query: &[u8]) -> Result<Option<Place>, AllocError>
    ensures { IfOk result (λ place. place ≡ places.go_at query.now) }
{
    match query_in(query) {
        Some(query) => Ok(Some(Place::Go(box_page(alloc, query)?))),
        None => Ok(None),
    }
}

fn query_of(rest: Option<&[u8]>) -> &[u8]
    ensures { result.now ≡ unwrap_or (option_map (λ r. r.now) rest.entry) [] }
{
    match rest {
        Some(rest) => rest,
        None => &[],
    }
}

/// The page of a search, if the path is one of it and the query can stand in an address.
fn find_at(alloc: Global, path: &[u8], query: &[u8]) -> Result<Option<Place>, AllocError>
    ensures { IfOk result (λ place. place ≡ places.find_at path.now query.now) }
{
    match (start_of(path), query_in(query)) {
        (Some(start), Some(query)) => {
            let query = Text::new(alloc, query)?;
            Ok(Some(Place::Page(Page::Find { query, start })))
        }
        _ => Ok(None),
    }
}

/// The query, where each of its bytes may stand in an address.
fn query_in(query: &[u8]) -> Option<&str>
    ensures { option_map (λ q. q.now) result ≡ places.query_in query.now }
{
    match text_in(query) {
        Some(text) => {
            if stands_in_address(query) {
                Some(text)
            } else {
                None
            }
        }
        None => None,
    }
}

fn stands_in_address(query: &[u8]) -> bool
    ensures { result ≡ list_all places.is_shown query.now }
{
    query.iter().all(|b| b'!' <= *b && *b <= b'~')
}

/// Where a page of a search begins, by its path.
fn start_of(path: &[u8]) -> Option<Start>
    ensures { result ≡ places.start_of path.now }
{
    if path == b"/desk/find".as_slice() {
        return Some(Start::First);
    }
    match behind(AFTER, path) {
        Some(rest) => after_in(rest),
        None => match behind(BEFORE, path) {
            Some(rest) => before_in(rest),
            None => None,
        },
    }
}

fn after_in(rest: &[u8]) -> Option<Start>
    ensures { result ≡ option_map Start.After (places.place_in rest.now) }
{
    match find_place(rest) {
        Some(place) => Some(Start::After(place)),
        None => None,
    }
}

fn before_in(rest: &[u8]) -> Option<Start>
    ensures { result ≡ option_map Start.Before (places.place_in rest.now) }
{
    match find_place(rest) {
        Some(place) => Some(Start::Before(place)),
        None => None,
    }
}

/// The place in what is found, of its key and its number.
fn find_place(rest: &[u8]) -> Option<find_core::Place>
    ensures { result ≡ places.place_in rest.now }
{
    let (key, id) = cut(rest, b'/');
    match (text_in(key), text_in(query_of(id))) {
        (Some(key), Some(id)) => place_in(key, id),
        _ => None,
    }
}

/// The place of a path, if it has one.
pub(crate) fn place_of(alloc: Global, path: &[u8]) -> Result<Option<Place>, AllocError>
    ensures { IfOk result (λ place. place ≡ places.place_of path.now) }
{
    match fixed(path) {
        Some(place) => Ok(Some(place)),
        None => below(alloc, path),
    }
}

/// The method of this name: HEAD asks for what GET does.
pub(crate) fn method_named(name: &[u8]) -> Option<Method>
    ensures { result ≡ places.method_named name.now }
{
    if name == b"GET".as_slice() {
        Some(Method::Get)
    } else if name == b"HEAD".as_slice() {
        Some(Method::Get)
    } else if name == b"POST".as_slice() {
        Some(Method::Post)
    } else {
        None
    }
}

/// Whether the place has POST beside GET.
pub(crate) fn takes_post(place: &Place) -> bool
    ensures { result ≡ places.takes_post place.now }
{
    match place {
        Place::Style => false,
        Place::Go(_) => false,
        Place::Page(Page::New(_)) => true,
        Place::Page(_) => false,
        _ => true,
    }
}
