//! The law of commits that are one: the contract of a function that does nothing.
ghost use Rattle.batch_store.specs.Runs.{IsTogether};

use sqlite_trees::store::Alter;

/// Whatever calls are made of a new store, a crash leaves of the one below what it left at first, or
/// what a commit made whose number is a multiple of so many: of those that are one all, or none.
pub fn together_law<S: Alter>()
    ensures { IsTogether S.Store }
{}
