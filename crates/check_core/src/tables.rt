//! What is wrong first with tables of the present version, by settings.

ghost use Rattle.std.specs.Prelude.{◌≡◌, IfErr, IfOk, string_bytes};
ghost use Rattle.store_tables.specs.Calls.{LeavesTables};
ghost use Rattle.store_tables.specs.Readings.{MismatchMeansBadRow};
ghost use Rattle.store_tables.specs.declared.fault.StoreFault.{StoreFault};
ghost use Rattle.store_core.specs.Seen.{state_of};
ghost use Rattle.check_core.specs.Tables.{BeginsOver, IsWrong, TellsName};

use crate::names::first_name;
use service_core::{AttachFault, knows_tables};
use settings_core::Settings;
use std::alloc::Global;
use store_core::{Backend, Store, StoreFault};

/// What is wrong first with tables.
#[derive(Drop)]
pub enum Wrong {
    /// The settings don't know this name, which is told in words.
    Name(String),
    /// A row is no value of its type, or the store or memory refused it.
    Rows(StoreFault),
}

/// What is wrong first with tables of the present version, as `Desk::attach` finds it: a row that is
/// no value of its type, or else the first name that the settings don't know, in words. Nothing is
/// wrong exactly where each row that is tested then is good and the settings know each name, unless
/// the store or memory refuses it. The tables stay as they are.
#[tactic(auto, using(store_tables::proofs::Spared::joined))]
pub fn fault_of_tables<S: Backend>(
    alloc: Global,
    store: &mut Store<S>,
    settings: &Settings,
) -> Option<Wrong>
    ensures is { IsWrong settings.now
        (state_of S.Store store.old) (state_of S.Store store.new) result }
    ensures begins { BeginsOver settings.now
        (state_of S.Store store.old) (state_of S.Store store.new) result }
    ensures kept { LeavesTables (state_of S.Store store.old) (state_of S.Store store.new) }
{
    match knows_tables(alloc, store, settings) {
        Ok(true) => None,
        Ok(false) => match name_lacked(alloc, store, settings) {
            Ok(told) => Some(Wrong::Name(told)),
            Err(refused) => Some(Wrong::Rows(refused)),
        },
        Err(fault) => Some(Wrong::Rows(fault)),
    }
}

/// The first name that the settings don't know, in words, of tables that have one. The tables stay
/// as they are.
fn name_lacked<S: Backend>(
    alloc: Global,
    store: &mut Store<S>,
    settings: &Settings,
) -> Result<String, StoreFault>
    ensures told { IfOk result (λ told. TellsName settings.now (state_of S.Store store.old)
        (state_of S.Store store.new) (string_bytes told)) }
    ensures kept { LeavesTables (state_of S.Store store.old) (state_of S.Store store.new) }
    ensures blames { MismatchMeansBadRow
        (state_of S.Store store.old) (state_of S.Store store.new) result }
{
    match first_name(alloc, store, settings)? {
        Some(told) => Ok(told),
        None => some_name(alloc),
    }
}

/// That some name isn't known. It is told so only of tables that are no desk's.
fn some_name(alloc: Global) -> Result<String, StoreFault>
    ensures { IfErr result (λ fault. fault ≡ StoreFault.Refused) }
{
    let unknown = AttachFault::UnknownName;
    match format!(in alloc; "{unknown}") {
        Ok(told) => Ok(told),
        Err(_) => Err(StoreFault::Refused),
    }
}
