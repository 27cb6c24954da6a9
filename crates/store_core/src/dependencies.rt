//! What a request depends on, of its links and the rows that they lead to.
ghost use Rattle.std.specs.Prelude.{◌++◌, ◌∷◌, ◌≡◌, IfErr, IfOk, OnOk, [], false};
ghost use Rattle.std.specs.List.{flat_map};
ghost use Rattle.std.specs.Option.{option_map_or};
ghost use Rattle.std.specs.Str.{bytes_eq};
ghost use Rattle.desk_model.specs.Desk.{queue_at};
ghost use Rattle.desk_model.specs.Facts as facts;
ghost use Rattle.store_tables.specs.declared.fault.StoreFault.{StoreFault};
ghost use Rattle.store_tables.specs.Readings.{OfDesk, Reads};
ghost use Rattle.store_core.specs.Found as found;
ghost use Rattle.store_tables.specs.Seen.{seen};

use crate::seen_request;
use desk_core::{Dependency, LinkKind, LinkRow, QueueRow, RequestRow};
use sqlite::Alter;
use std::alloc::Global;
use store_tables::tables::link::links_of_kind;
use store_tables::tables::request::request_numbered;
use store_tables::{StoreFault, Tables};
use text_core::{Sequence, Text};

/// What a request depends on.
pub(crate) fn dependencies_of<S: Alter>(
    alloc: Global,
    tables: &mut Tables<S>,
    id: u32,
) -> Result<Sequence<Dependency>, StoreFault>
    ensures { Reads (OfDesk (λ desk all. all ≡ facts.dependencies_of desk id))
        (seen S.Store tables.old) (seen S.Store tables.new) result }
{
    let links = links_of_kind(alloc, tables, id, LinkKind::DependsOn)?;
    dependencies_by(alloc, tables, links.as_slice())
}

/// What the links lead to. A queue is read only where it isn't that of the link before.
fn dependencies_by<S: Alter>(
    alloc: Global,
    tables: &mut Tables<S>,
    links: &[LinkRow],
) -> Result<Sequence<Dependency>, StoreFault>
    ensures { Reads (OfDesk (λ desk all. all ≡ flat_map (found.dependency_by desk) links.now))
        (seen S.Store tables.old) (seen S.Store tables.new) result }
{
    let mut all = Vec::new(alloc);
    let mut queue = None;
    for link in links {
        put_dependency(&mut all, tables, &mut queue, link)?;
    }
    Ok(Sequence::from(all))
}

/// What a link leads to, at the end of the others.
fn put_dependency<S: Alter>(
    all: &mut Vec<Dependency>,
    tables: &mut Tables<S>,
    queue: &mut Option<QueueRow>,
    link: &LinkRow,
) -> Result<(), StoreFault>
    ensures { Reads (OfDesk (λ desk done. found.IsQueue desk queue.old →
        (all.new.items ≡ all.old.items ++ found.dependency_by desk link.now)
        × found.IsQueue desk queue.new))
        (seen S.Store tables.old) (seen S.Store tables.new) result }
{
    match dependency_at(tables, queue, link.target)? {
        None => Ok(()),
        Some(dependency) => push_dependency(all, dependency),
    }
}

fn push_dependency(all: &mut Vec<Dependency>, one: Dependency) -> Result<(), StoreFault>
    ensures ok { OnOk result (all.new.items ≡ all.old.items ++ one ∷ []) }
    ensures fault { IfErr result (λ e. e ≡ StoreFault.Refused) }
{
    match all.push(one) {
        Ok(()) => Ok(()),
        Err(_) => Err(StoreFault::Refused),
    }
}

/// What a request is to one that depends on it, if it and its queue are there. The queue is the one
/// that is kept, or it is read and kept.
fn dependency_at<S: Alter>(
    tables: &mut Tables<S>,
    queue: &mut Option<QueueRow>,
    id: u32,
) -> Result<Option<Dependency>, StoreFault>
    ensures { Reads (OfDesk (λ desk one. found.IsQueue desk queue.old →
        (one ≡ found.dependency_at desk id) × found.IsQueue desk queue.new))
        (seen S.Store tables.old) (seen S.Store tables.new) result }
{
    match request_numbered(tables, id)? {
        None => Ok(None),
        Some(row) => {
            keep_queue(tables, queue, &row.queue)?;
            dependency_of(row, queue)
        }
    }
}

/// Keeps the queue with that name, or none where it isn't there. It is read unless it is the one
/// that is kept.
fn keep_queue<S: Alter>(
    tables: &mut Tables<S>,
    queue: &mut Option<QueueRow>,
    name: &Text,
) -> Result<(), StoreFault>
    ensures { Reads (OfDesk (λ desk done. found.IsQueue desk queue.old →
        queue.new ≡ queue_at desk name.now))
        (seen S.Store tables.old) (seen S.Store tables.new) result }
{
    if is_named(queue, name) {
        return Ok(());
    }
    *queue = seen_request::queue_at(tables, name)?;
    Ok(())
}

/// Whether there is a queue, with that name.
fn is_named(queue: &Option<QueueRow>, name: &Text) -> bool
    ensures { result ≡ option_map_or (λ q. bytes_eq q.name name.now) queue.now false }
{
    match queue {
        Some(queue) => queue.name == *name,
        None => false,
    }
}

/// A request that another one depends on, if its queue is there. `Refused` where out of memory.
fn dependency_of(
    row: RequestRow,
    queue: &Option<QueueRow>,
) -> Result<Option<Dependency>, StoreFault>
    ensures ok { IfOk result (λ one. one ≡ found.dependency_of row queue.now) }
    ensures fault { IfErr result (λ e. e ≡ StoreFault.Refused) }
{
    let status = row.status;
    match queue {
        None => Ok(None),
        Some(queue) => match queue.lifecycle.clone() {
            Ok(lifecycle) => Ok(Some(Dependency { lifecycle, status })),
            Err(_) => Err(StoreFault::Refused),
        },
    }
}
