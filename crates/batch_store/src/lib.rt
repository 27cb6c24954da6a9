//! A store that makes several commits one: it keeps each back but every so many'th, so the disk is
//! written once for all of them, and a crash leaves all or none.
//!
//! A commit that is kept back shows as any other. The store below has one transaction open all the
//! time, and a savepoint of its own after each commit that was kept back. A commit is made below
//! where as many are one by it (`Steps`): so what a crash leaves below is what the last of these
//! left. Where a call below fails, what was kept back is lost, each later call fails, and what the
//! last commit made below stands.
//!
//! No table is made or dropped by it.
#![tactic(auto)]

mod batched;
mod connection;
mod laws;

pub use batched::Batched;
pub use connection::{keep_back, make_all};
pub use laws::together_law;
