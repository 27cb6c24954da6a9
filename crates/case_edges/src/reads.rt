//! What the list readers of a store tell, each called here once, as the calls of `calls.rt` are.

use desk_core::{Entry, LinkRow, QueueRow, RequestRow, Watcher};
use hours_core::{Minute, Stay};
use std::alloc::Global;
use store_core::{Backend, Store, StoreFault};

/// A request with its due moment, as the tables have it.
pub(crate) type Dated = (RequestRow, Option<Minute>);

pub(crate) fn queues<S: Backend>(
    alloc: Global,
    store: &mut Store<S>,
) -> Result<Vec<QueueRow>, StoreFault> {
    store.queues(alloc)
}

/// The requests of the tables.
pub fn requests<S: Backend>(
    alloc: Global,
    store: &mut Store<S>,
) -> Result<Vec<RequestRow>, StoreFault> {
    store.requests(alloc)
}

pub(crate) fn dated_requests<S: Backend>(
    alloc: Global,
    store: &mut Store<S>,
) -> Result<Vec<Dated>, StoreFault> {
    store.dated_requests(alloc)
}

pub(crate) fn watchers<S: Backend>(
    alloc: Global,
    store: &mut Store<S>,
) -> Result<Vec<Watcher>, StoreFault> {
    store.watchers(alloc)
}

pub(crate) fn links<S: Backend>(
    alloc: Global,
    store: &mut Store<S>,
) -> Result<Vec<LinkRow>, StoreFault> {
    store.links(alloc)
}

pub(crate) fn stays<S: Backend>(
    alloc: Global,
    store: &mut Store<S>,
) -> Result<Vec<(u32, Stay)>, StoreFault> {
    store.stays(alloc)
}

pub(crate) fn entries_of<S: Backend>(
    alloc: Global,
    store: &mut Store<S>,
    id: u32,
) -> Result<Vec<Entry>, StoreFault> {
    store.entries_of(alloc, id)
}
