//! The pages that GET shows, and their paths.

ghost use Rattle.std.specs.Prelude.{◌≡◌, ◌++◌, codes, decimal, string_bytes, IfOk};
ghost use Rattle.page_routes.specs.Paths as paths;

use find_form::{Start, place_text};
use std::alloc::{AllocError, Global};
use text_core::Text;

/// A page that GET shows.
#[derive(Drop)]
pub enum Page {
    /// `/`
    Home,
    /// `/desk/queues/NAME`
    Queue(Text),
    /// `/desk/queues/NAME/new`
    New(Text),
    /// `/desk/requests/N`
    Request(u32),
    /// `/desk/overdue`
    Overdue,
    /// `/desk/workload`
    Workload,
    /// `/desk/find?QUERY`, `/desk/find/after/PLACE?QUERY` or `/desk/find/before/PLACE?QUERY`
    Find { query: Text, start: Start },
}

/// The path of a page. `AllocError` where memory is refused.
pub fn page_path(alloc: Global, page: &Page) -> Result<Text, AllocError>
    ensures { IfOk result (λ path. path ≡ paths.path_of page.now) }
{
    match page {
        Page::Home => Text::new(alloc, "/"),
        Page::Queue(name) => queue_path(alloc, name.as_str()),
        Page::New(name) => new_path(alloc, name.as_str()),
        Page::Request(id) => request_path(alloc, *id),
        Page::Overdue => Text::new(alloc, "/desk/overdue"),
        Page::Workload => Text::new(alloc, "/desk/workload"),
        Page::Find { query, start } => find_path(alloc, query.as_str(), *start),
    }
}

fn queue_path(alloc: Global, name: &str) -> Result<Text, AllocError>
    ensures { IfOk result (λ path. path ≡ codes "/desk/queues/" ++ name.now) }
{
    let path = format!(in alloc; "/desk/queues/{name}")?;
    Ok(Text::from(path))
}

pub(crate) fn new_path(alloc: Global, name: &str) -> Result<Text, AllocError>
    ensures { IfOk result (λ path. path ≡ codes "/desk/queues/" ++ (name.now ++ codes "/new")) }
{
    let path = format!(in alloc; "/desk/queues/{name}/new")?;
    Ok(Text::from(path))
}

fn request_path(alloc: Global, id: u32) -> Result<Text, AllocError>
    ensures { IfOk result (λ path. path ≡ codes "/desk/requests/" ++ decimal id) }
{
    let path = format!(in alloc; "/desk/requests/{id}")?;
    Ok(Text::from(path))
}

fn find_path(alloc: Global, query: &str, start: Start) -> Result<Text, AllocError>
    ensures { IfOk result (λ path. path ≡ paths.find_path query.now start) }
{
    match start {
        Start::First => first_path(alloc, query),
        Start::After(place) => {
            let place = place_text(alloc, place)?;
            after_path(alloc, query, place.as_str())
        }
        Start::Before(place) => {
            let place = place_text(alloc, place)?;
            before_path(alloc, query, place.as_str())
        }
    }
}

fn first_path(alloc: Global, query: &str) -> Result<Text, AllocError>
    ensures { IfOk result (λ path. path ≡ codes "/desk/find?" ++ query.now) }
{
    let path = format!(in alloc; "/desk/find?{query}")?;
    Ok(Text::from(path))
}

fn after_path(alloc: Global, query: &str, place: &str) -> Result<Text, AllocError>
    ensures { IfOk result (λ path.
        path ≡ codes "/desk/find/after/" ++ (place.now ++ (codes "?" ++ query.now))) }
{
    let path = format!(in alloc; "/desk/find/after/{place}?{query}")?;
    Ok(Text::from(path))
}

fn before_path(alloc: Global, query: &str, place: &str) -> Result<Text, AllocError>
    ensures { IfOk result (λ path.
        path ≡ codes "/desk/find/before/" ++ (place.now ++ (codes "?" ++ query.now))) }
{
    let path = format!(in alloc; "/desk/find/before/{place}?{query}")?;
    Ok(Text::from(path))
}
