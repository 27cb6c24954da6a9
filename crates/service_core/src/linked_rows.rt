//! The rows of the requests that one is linked with, as far as the caller may show them.
ghost use Rattle.std.specs.Prelude.{◌≡◌, ◌++◌, IfErr, IfOk, OnOk};
ghost use Rattle.std.specs.Option.{option_to_list};
ghost use Rattle.desk_model.specs.View.{view};
ghost use Rattle.store_tables.specs.Calls.{LeavesTables, Tells};
ghost use Rattle.store_core.specs.Seen.{state_of};
ghost use Rattle.service_core.specs.LinkedRows as linked;
ghost use Rattle.service_core.specs.LinkedRows.{LinkedOn};
ghost use Rattle.service_core.specs.Seen.{settings_of, tables_of};

use crate::desk::Desk;
use desk_core::{Links, Refusal, RequestRow};
use settings_core::Settings;
use std::alloc::{AllocError, Global};
use store_core::{Backend, Store};
use text_core::Sequence;

impl<S: Backend> Desk<S> {
    /// The rows of the requests with these numbers, kind by kind, as far as they are there and the
    /// caller may show them: a hidden request is as one that isn't there. Each number costs two
    /// statements at most.
    ///
    /// `Unavailable` where memory or the store refused. The tables stay as they are, whatever rows
    /// they have.
    pub fn linked_rows(
        &mut self,
        alloc: Global,
        caller: &str,
        links: &Links,
    ) -> Result<Sequence<RequestRow>, Refusal>
        ensures told { LinkedOn (settings_of S.Store self.old) caller.now links.now result
            (tables_of S.Store self.old) (tables_of S.Store self.new) }
        ensures kept { LeavesTables (tables_of S.Store self.old) (tables_of S.Store self.new) }
        ensures same { settings_of S.Store self.new ≡ settings_of S.Store self.old }
    {
        linked_to(alloc, &mut self.store, &self.settings, caller, links)
    }
}

/// The same, over the store of the desk.
#[tactic(auto, using(store_tables::proofs::Spared::unread))]
fn linked_to<S: Backend>(
    alloc: Global,
    store: &mut Store<S>,
    settings: &Settings,
    caller: &str,
    links: &Links,
) -> Result<Sequence<RequestRow>, Refusal>
    ensures told { Tells (λ desk rows. rows
        ≡ linked.linked_rows (view settings.now caller.now desk) links.now)
        (state_of S.Store store.old) (state_of S.Store store.new) result }
    ensures kept { LeavesTables (state_of S.Store store.old) (state_of S.Store store.new) }
    ensures fault { IfErr result (λ refusal. refusal ≡ Refusal.Unavailable) }
{
    let numbers = numbers_of(alloc, links)?;
    let rows = rows_at(alloc, store, settings, caller, numbers.as_slice())?;
    Ok(Sequence::from(rows))
}

/// The numbers of all these links, kind by kind.
fn numbers_of(alloc: Global, links: &Links) -> Result<Vec<u32>, AllocError>
    ensures { IfOk result (λ numbers. numbers.items ≡ linked.linked_numbers links.now) }
{
    let mut numbers = Vec::new(alloc);
    numbers.extend_from_slice(links.depends_on.as_slice())?;
    numbers.extend_from_slice(links.depended_on_by.as_slice())?;
    numbers.extend_from_slice(links.member_of.as_slice())?;
    numbers.extend_from_slice(links.has_member.as_slice())?;
    numbers.extend_from_slice(links.refers_to.as_slice())?;
    numbers.extend_from_slice(links.referred_to_by.as_slice())?;
    Ok(numbers)
}

/// The rows of these requests, as far as the caller may show them. `Unavailable` where memory or
/// the store refused. The tables stay as they are.
#[tactic(auto, using(store_tables::proofs::Spared::unread))]
fn rows_at<S: Backend>(
    alloc: Global,
    store: &mut Store<S>,
    settings: &Settings,
    caller: &str,
    numbers: &[u32],
) -> Result<Vec<RequestRow>, Refusal>
    ensures told { Tells (λ desk rows. rows.items
        ≡ linked.rows_at (view settings.now caller.now desk) numbers.now)
        (state_of S.Store store.old) (state_of S.Store store.new) result }
    ensures kept { LeavesTables (state_of S.Store store.old) (state_of S.Store store.new) }
    ensures fault { IfErr result (λ refusal. refusal ≡ Refusal.Unavailable) }
{
    let mut rows = Vec::new(alloc);
    for number in numbers {
        let row = store.shown_row(alloc, settings, caller, *number)?;
        put_if(&mut rows, row)?;
    }
    Ok(rows)
}

/// Puts the row behind the others, if there is one.
fn put_if(rows: &mut Vec<RequestRow>, row: Option<RequestRow>) -> Result<(), AllocError>
    ensures { OnOk result (rows.new.items ≡ rows.old.items ++ option_to_list row) }
{
    if let Some(row) = row {
        rows.push(row)?;
    }
    Ok(())
}
