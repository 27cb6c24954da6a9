//! What the first page asks, and what it tells.
use crate::loads::QueueLoad;
use crate::search::{Findings, Search};
use text_core::Sequence;

/// The searches of the first page.
#[derive(Drop)]
pub struct HomeSearches {
    /// What is the person's own.
    pub own: Search,
    /// What the person asked for.
    pub asked: Search,
    /// What nobody owns.
    pub free: Search,
}

/// What the first page tells.
#[derive(Drop)]
pub struct Home {
    /// What each of its searches finds.
    pub own: Findings,
    pub asked: Findings,
    pub free: Findings,
    /// What each queue has open.
    pub loads: Sequence<QueueLoad>,
}
