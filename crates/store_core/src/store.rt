//! The store of a desk: its tables, over one connection.
use crate::filed::Filed;
use sqlite::Alter;
use store_tables::Tables;
use text_core::Sequence;

/// The tables of a desk. Between two calls no transaction is open.
#[derive(Drop)]
pub struct Store<S: Alter> {
    pub(crate) tables: Tables<S>,
    /// The numbers by which `rows_overdue` reads, once there were any.
    pub(crate) ahead: Option<Sequence<u32>>,
    /// The rows of the queue by which `rows_of_queue` reads, once there was one.
    pub(crate) filed: Option<Filed>,
}
