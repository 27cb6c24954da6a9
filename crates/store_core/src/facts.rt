//! The facts of a command: what it looks at on the desk that the tables stand for.
//!
//! What owns much is given back by `drop`, whose proof stands once; at the end of its scope it
//! would be taken apart for each function's own proof.
ghost use Rattle.std.specs.Prelude.{◌≡◌, ◌≢◌, ◌&&◌, IfErr};
ghost use Rattle.desk_model.specs.Desk as desk_at;
ghost use Rattle.desk_model.specs.Facts as facts;
ghost use Rattle.desk_model.specs.Links.{has_link};
ghost use Rattle.desk_model.specs.Plan.{Dependencies, besides_on};
ghost use Rattle.desk_model.specs.Scope.{seen_in};
ghost use Rattle.desk_model.specs.Step.{facts_of};
ghost use Rattle.store_tables.specs.declared.fault.StoreFault.{StoreFault};
ghost use Rattle.store_tables.specs.Calls.{OnlyRefuses, LeavesTables, Tells};
ghost use Rattle.store_tables.specs.Readings.{MismatchMeansBadRow, OfDesk, Reads};
ghost use Rattle.store_core.specs.Found as found;
ghost use Rattle.store_core.specs.Seen.{state_of};
ghost use Rattle.store_tables.specs.Seen.{seen};

use crate::dependencies::dependencies_of;
use crate::seen_request::{queue_at, queue_of, seen_request_at};
use crate::stays::stays_if;
use crate::store::Store;
use desk_core::{Command, Dependency, Facts, LinkRow, QueueRow, Scope, SeenRequest};
use hours_core::Stay;
use sqlite::Alter;
use std::alloc::Global;
use store_tables::tables::link::link_like;
use store_tables::tables::queue::queue_count;
use store_tables::tables::request::last_id;
use store_tables::{StoreFault, Tables};
use text_core::{Sequence, Text};

impl<S: Alter> Store<S> {
    /// What a command looks at on the desk. `Mismatch` where a row is no value of its type,
    /// `Refused` where the store or memory refuses it, or a key has two rows. The tables stay as
    /// they are.
    pub fn facts_for(&mut self, alloc: Global, command: &Command) -> Result<Facts, StoreFault>
        ensures told { Tells (λ desk facts. facts ≡ facts_of command.now desk)
            (state_of S.Store self.old) (state_of S.Store self.new) result }
        ensures kept { LeavesTables (state_of S.Store self.old) (state_of S.Store self.new) }
        ensures refuses { OnlyRefuses
            (state_of S.Store self.old) (state_of S.Store self.new) result }
        ensures fault { IfErr result (λ e. e ≢ StoreFault.WrongVersion) }
        ensures blames { MismatchMeansBadRow (state_of S.Store self.old) (state_of S.Store self.new) result }
    {
        facts_by_scope(alloc, &mut self.tables, command.scope())
    }

    /// The queue with that name, or none, by one read. `Mismatch` where the row is no queue,
    /// `Refused` where the store or memory refuses it, or the name has two rows. The tables stay as
    /// they are.
    pub fn queue_named(&mut self, name: &Text) -> Result<Option<QueueRow>, StoreFault>
        ensures told { Tells (λ desk queue. queue ≡ desk_at.queue_at desk name.now)
            (state_of S.Store self.old) (state_of S.Store self.new) result }
        ensures kept { LeavesTables (state_of S.Store self.old) (state_of S.Store self.new) }
        ensures refuses { OnlyRefuses
            (state_of S.Store self.old) (state_of S.Store self.new) result }
        ensures fault { IfErr result (λ e. e ≢ StoreFault.WrongVersion) }
        ensures blames { MismatchMeansBadRow (state_of S.Store self.old) (state_of S.Store self.new) result }
    {
        queue_at(&mut self.tables, name)
    }
}

/// What is seen of a desk in a scope.
fn facts_by_scope<S: Alter>(
    alloc: Global,
    tables: &mut Tables<S>,
    scope: Scope<'_>,
) -> Result<Facts, StoreFault>
    ensures { Reads (OfDesk (λ desk facts. facts ≡ seen_in scope.entry desk))
        (seen S.Store tables.old) (seen S.Store tables.new) result }
{
    match scope {
        Scope::Nothing => Ok(no_facts(alloc)),
        Scope::QueueAlone(name) => queue_facts(alloc, tables, name),
        Scope::Queue(name) => queue_facts_with_counts(alloc, tables, name),
        Scope::RequestAlone(id) => request_facts(alloc, tables, id),
        Scope::Request(id) => request_facts_with_stays(alloc, tables, id),
        Scope::Dependencies(id) => move_facts(alloc, tables, id),
        Scope::Link(link) => link_facts(alloc, tables, link),
    }
}

/// Of a reading of a queue: the queue alone.
fn queue_facts<S: Alter>(
    alloc: Global,
    tables: &mut Tables<S>,
    name: &Text,
) -> Result<Facts, StoreFault>
    ensures { Reads (OfDesk (λ desk seen. seen ≡ facts.facts_of_queue desk name.now))
        (seen S.Store tables.old) (seen S.Store tables.new) result }
{
    let queue = queue_at(tables, name)?;
    Ok(build_queue_facts(alloc, queue, 0, 0))
}

/// Of a command that changes a queue: the queue and both counts. How many requests there are is the
/// last number, since the numbers have no gaps.
fn queue_facts_with_counts<S: Alter>(
    alloc: Global,
    tables: &mut Tables<S>,
    name: &Text,
) -> Result<Facts, StoreFault>
    ensures { Reads (OfDesk (λ desk seen. seen ≡ facts.facts_on_queue desk name.now))
        (seen S.Store tables.old) (seen S.Store tables.new) result }
{
    let queues = queue_count(tables)?;
    let requests = last_id(tables)?;
    let queue = queue_at(tables, name)?;
    Ok(build_queue_facts(alloc, queue, queues, requests))
}

/// Of a command that leaves a request's row: the request and its queue.
fn request_facts<S: Alter>(
    alloc: Global,
    tables: &mut Tables<S>,
    id: u32,
) -> Result<Facts, StoreFault>
    ensures { Reads (OfDesk (λ desk seen. seen ≡ facts.facts_of_request desk id))
        (seen S.Store tables.old) (seen S.Store tables.new) result }
{
    let request = seen_request_at(alloc, tables, id)?;
    let queue = queue_of(tables, &request)?;
    Ok(build_request_facts(alloc, queue, request, Sequence::from(Vec::new(alloc))))
}

/// Of one that puts another row, and of a reading of a request: its stays too.
fn request_facts_with_stays<S: Alter>(
    alloc: Global,
    tables: &mut Tables<S>,
    id: u32,
) -> Result<Facts, StoreFault>
    ensures { Reads (OfDesk (λ desk seen. seen ≡ facts.facts_on_request desk id))
        (seen S.Store tables.old) (seen S.Store tables.new) result }
{
    let request = seen_request_at(alloc, tables, id)?;
    let stays = stays_if(alloc, tables, id, request.is_some())?;
    let queue = queue_of(tables, &request)?;
    Ok(build_request_facts(alloc, queue, request, stays))
}

/// Of a move: what the request depends on too, which is nothing where it isn't there.
fn move_facts<S: Alter>(alloc: Global, tables: &mut Tables<S>, id: u32) -> Result<Facts, StoreFault>
    ensures { Reads (OfDesk (λ desk seen. seen ≡ besides_on Dependencies id desk))
        (seen S.Store tables.old) (seen S.Store tables.new) result }
{
    let facts = request_facts_with_stays(alloc, tables, id)?;
    if facts.request.is_none() {
        return Ok(facts);
    }
    match dependencies_of(alloc, tables, id) {
        Ok(dependencies) => Ok(with_dependencies(facts, dependencies)),
        Err(fault) => {
            drop(facts);
            Err(fault)
        }
    }
}

/// Of a link: the request at its other end too, and whether the link is there.
fn link_facts<S: Alter>(
    alloc: Global,
    tables: &mut Tables<S>,
    link: LinkRow,
) -> Result<Facts, StoreFault>
    ensures { Reads (OfDesk (λ desk seen. seen ≡ seen_in (Scope.Link link) desk))
        (seen S.Store tables.old) (seen S.Store tables.new) result }
{
    let facts = request_facts(alloc, tables, link.source)?;
    match other_end(alloc, tables, link, facts.request.is_some()) {
        Ok((other, is_linked)) => Ok(with_link(facts, other, is_linked)),
        Err(fault) => {
            drop(facts);
            Err(fault)
        }
    }
}

/// The request at the other end of a link, and whether the link is there, which it can't be where
/// its source isn't.
fn other_end<S: Alter>(
    alloc: Global,
    tables: &mut Tables<S>,
    link: LinkRow,
    has_source: bool,
) -> Result<(Option<SeenRequest>, bool), StoreFault>
    ensures { Reads (OfDesk (λ desk end. end ≡ found.other_end desk link has_source))
        (seen S.Store tables.old) (seen S.Store tables.new) result }
{
    let other = seen_request_at(alloc, tables, link.target)?;
    let is_linked = is_linked_if(tables, link, has_source, other.is_some())?;
    Ok((other, is_linked))
}

/// Whether the link is there; it isn't read where an end is missing.
fn is_linked_if<S: Alter>(
    tables: &mut Tables<S>,
    link: LinkRow,
    has_source: bool,
    has_target: bool,
) -> Result<bool, StoreFault>
    ensures { Reads (OfDesk (λ desk linked.
        linked ≡ ((has_source && has_target) && has_link desk link)))
        (seen S.Store tables.old) (seen S.Store tables.new) result }
{
    if has_source && has_target {
        let linked = link_like(tables, link)?;
        Ok(linked.is_some())
    } else {
        Ok(false)
    }
}

/// Facts of a queue, with both counts.
fn build_queue_facts(
    alloc: Global,
    queue: Option<QueueRow>,
    queue_count: u32,
    request_count: u32,
) -> Facts
    ensures { result ≡ found.build_queue_facts queue queue_count request_count }
{
    Facts {
        queue,
        queue_count,
        request_count,
        ..no_facts(alloc)
    }
}

/// Facts of a request, its stays and its queue.
fn build_request_facts(
    alloc: Global,
    queue: Option<QueueRow>,
    request: Option<SeenRequest>,
    stays: Sequence<Stay>,
) -> Facts
    ensures { result ≡ found.build_request_facts queue request stays }
{
    Facts {
        queue,
        request,
        stays,
        ..no_facts(alloc)
    }
}

/// The facts, with what the request depends on.
fn with_dependencies(facts: Facts, dependencies: Sequence<Dependency>) -> Facts
    ensures { result ≡ found.with_dependencies facts dependencies }
{
    Facts {
        dependencies,
        ..facts
    }
}

/// The facts, with the request at the other end of a link, and whether the link is there.
fn with_link(facts: Facts, other: Option<SeenRequest>, is_linked: bool) -> Facts
    ensures { result ≡ found.with_link facts other is_linked }
{
    Facts {
        other,
        is_linked,
        ..facts
    }
}

/// Of a command that looks at nothing.
fn no_facts(alloc: Global) -> Facts
    ensures { result ≡ facts.no_facts }
{
    Facts {
        queue: None,
        queue_count: 0,
        request_count: 0,
        request: None,
        stays: Sequence::from(Vec::new(alloc)),
        other: None,
        is_linked: false,
        dependencies: Sequence::from(Vec::new(alloc)),
    }
}
