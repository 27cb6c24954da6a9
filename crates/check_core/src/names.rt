//! The first name of a desk's tables that settings don't know, in words for people.

ghost use Rattle.std.specs.Prelude.{◌≡◌, IfErr, IfOk, Some, string_bytes};
ghost use Rattle.std.specs.Option.{option_map};
ghost use Rattle.store_tables.specs.Contents.{history_at, watchers};
ghost use Rattle.store_tables.specs.declared.fault.StoreFault.{StoreFault};
ghost use Rattle.store_core.specs.Seen.{state_of};
ghost use Rattle.check_core.specs.Rows as spec;
ghost use Rattle.check_core.specs.Tables.{TellsUnknown};
ghost use Rattle.check_core.specs.Words.{unknown_text};

use crate::rows::{Unknown, unknown_entry, unknown_row, unknown_watcher};
use desk_model::RequestRow;
use settings_core::Settings;
use std::alloc::Global;
use store_core::{Backend, Store, StoreFault};

/// The first name of the tables that the settings don't know, in words: of a queue, or else of a
/// request, or else of a watcher, or else of who made an entry. `Mismatch` where a row is no value of
/// its type, `Refused` where the store or memory refuses it. The tables stay as they are.
pub fn first_name<S: Backend>(
    alloc: Global,
    store: &mut Store<S>,
    settings: &Settings,
) -> Result<Option<String>, StoreFault>
    ensures { TellsUnknown (spec.first_unknown settings.now)
        (state_of S.Store store.old) (state_of S.Store store.new) result }
{
    let queues = store.queues(alloc)?;
    let requests = store.requests(alloc)?;
    let requests = requests.as_slice();
    match unknown_row(settings, queues.as_slice(), requests) {
        Some(unknown) => told(alloc, unknown),
        None => person_told(alloc, store, settings, requests),
    }
}

/// The first watcher whom the settings don't know, in words, or else the first entry of these
/// requests that somebody made whom they don't.
fn person_told<S: Backend>(
    alloc: Global,
    store: &mut Store<S>,
    settings: &Settings,
    requests: &[RequestRow],
) -> Result<Option<String>, StoreFault>
    ensures { TellsUnknown (spec.unknown_person settings.now requests.now)
        (state_of S.Store store.old) (state_of S.Store store.new) result }
{
    match watcher_told(alloc, store, settings)? {
        Some(told) => Ok(Some(told)),
        None => actor_told(alloc, store, settings, requests),
    }
}

/// The first watcher whom the settings don't know, in words.
fn watcher_told<S: Backend>(
    alloc: Global,
    store: &mut Store<S>,
    settings: &Settings,
) -> Result<Option<String>, StoreFault>
    ensures { TellsUnknown (λ desk. spec.unknown_watcher settings.now (watchers desk))
        (state_of S.Store store.old) (state_of S.Store store.new) result }
{
    let watchers = store.watchers(alloc)?;
    told_if(alloc, unknown_watcher(settings, watchers.as_slice()))
}

/// The first entry of these requests that somebody made whom the settings don't know, in words.
fn actor_told<S: Backend>(
    alloc: Global,
    store: &mut Store<S>,
    settings: &Settings,
    requests: &[RequestRow],
) -> Result<Option<String>, StoreFault>
    ensures { TellsUnknown (λ desk. spec.unknown_entry settings.now (spec.histories requests.now desk))
        (state_of S.Store store.old) (state_of S.Store store.new) result }
{
    for request in requests {
        let found = actor_of(alloc, store, settings, request.id)?;
        match found {
            Some(told) => return Ok(Some(told)),
            None => {}
        }
    }
    Ok(None)
}

/// The first entry of a request that somebody made whom the settings don't know, in words.
fn actor_of<S: Backend>(
    alloc: Global,
    store: &mut Store<S>,
    settings: &Settings,
    id: u32,
) -> Result<Option<String>, StoreFault>
    ensures { TellsUnknown (λ desk. spec.unknown_entry settings.now (history_at desk id))
        (state_of S.Store store.old) (state_of S.Store store.new) result }
{
    let entries = store.entries_of(alloc, id)?;
    told_if(alloc, unknown_entry(settings, entries.as_slice()))
}

/// A name that the settings don't know, if there is one, in words. `Refused` where out of memory.
fn told_if(alloc: Global, unknown: Option<Unknown<'_>>) -> Result<Option<String>, StoreFault>
    ensures told { IfOk result (λ told. option_map string_bytes told
        ≡ option_map (λ found. unknown_text (spec.seen found)) unknown.entry) }
    ensures fault { IfErr result (λ fault. fault ≡ StoreFault.Refused) }
{
    match unknown {
        Some(unknown) => told(alloc, unknown),
        None => Ok(None),
    }
}

/// A name that the settings don't know, in words. `Refused` where out of memory.
fn told(alloc: Global, unknown: Unknown<'_>) -> Result<Option<String>, StoreFault>
    ensures told { IfOk result (λ told. option_map string_bytes told
        ≡ Some (unknown_text (spec.seen unknown.entry))) }
    ensures fault { IfErr result (λ fault. fault ≡ StoreFault.Refused) }
{
    match format!(in alloc; "{unknown}") {
        Ok(told) => Ok(Some(told)),
        Err(_) => Err(StoreFault::Refused),
    }
}
