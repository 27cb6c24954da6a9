//! All that the list readers tell of a store, as one text.

use crate::failure::Failure;
use crate::reads::{dated_requests, entries_of, links, queues, requests, stays, watchers};
use std::alloc::Global;
use std::fmt::Debug;
use store_core::{Backend, Store, StoreFault};

/// The rows of the tables, a line for each list: the queues, the requests with their due moments,
/// the watchers, the links, the stays, and the entries of each request.
pub(crate) fn rows_of<S: Backend>(alloc: Global, store: &mut Store<S>) -> Result<String, Failure> {
    let mut text = String::new(alloc);
    put(alloc, &mut text, queues(alloc, store))?;
    put(alloc, &mut text, dated_requests(alloc, store))?;
    put(alloc, &mut text, watchers(alloc, store))?;
    put(alloc, &mut text, links(alloc, store))?;
    put(alloc, &mut text, stays(alloc, store))?;
    put_histories(alloc, &mut text, store)?;
    Ok(text)
}

/// Adds the entries of each request.
fn put_histories<S: Backend>(
    alloc: Global,
    text: &mut String,
    store: &mut Store<S>,
) -> Result<(), Failure> {
    for request in requests(alloc, store)?.as_slice() {
        put(alloc, text, entries_of(alloc, store, request.id))?;
    }
    Ok(())
}

/// Adds the rows that were read.
fn put<T: Debug + Drop>(
    alloc: Global,
    text: &mut String,
    read: Result<Vec<T>, StoreFault>,
) -> Result<(), Failure> {
    let rows = read?;
    let line = format!(in alloc; "{rows:?}\n")?;
    text.push_str(line.as_str())?;
    Ok(())
}

/// Adds a line for each queue, and one for each request with its status and how many entries it has.
pub(crate) fn put_brief<S: Backend>(
    alloc: Global,
    out: &mut String,
    store: &mut Store<S>,
) -> Result<(), Failure> {
    for queue in queues(alloc, store)?.as_slice() {
        writeln!(out, "queue {}", queue.name.as_str())?;
    }
    for request in requests(alloc, store)?.as_slice() {
        let (id, status) = (request.id, request.status.as_str());
        let count = entries_of(alloc, store, id)?.len();
        writeln!(out, "request {id}: {status}, {count} entries")?;
    }
    Ok(())
}
