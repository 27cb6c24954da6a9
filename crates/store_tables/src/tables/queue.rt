//! The queues.
ghost use Rattle.std.specs.Prelude.{◌≡◌, IfErr, filter, option_to_list, length};
ghost use Rattle.store_tables.specs.declared.fault.StoreFault.{StoreFault};
ghost use Rattle.store_tables.specs.Contents.Queue.{IsQueueRow, ReadsQueue, by_name, is_named};
ghost use Rattle.store_tables.specs.Readings.{MismatchesInQueues, Reads, TestsQueues};
ghost use Rattle.store_tables.specs.Picked.{AreOrdered};
ghost use Rattle.store_tables.specs.Seen.{seen};
ghost use Rattle.store_tables.specs.Contents.{add_queue};

use crate::columns::{nullable, nullable_at, text_at, words};
use crate::fault::StoreFault;
use crate::query::{select_all, select_one};
use crate::stored::Stored;
use crate::tables::Tables;
use crate::transaction::run_on_one;
use crate::written::Put;
use desk_model::QueueRow;
use sqlite::{Alter, Row, Transaction};
use std::alloc::Global;
use text_core::Text;

/// The statement that makes the table.
pub(crate) const TABLE: &str =
    "CREATE TABLE IF NOT EXISTS queue (name TEXT NOT NULL PRIMARY KEY, lifecycle TEXT NOT NULL, \
     level TEXT) STRICT";

impl Stored for QueueRow {
    ghost reads = { ReadsQueue };

    ghost is_value = { IsQueueRow };

    fn read(row: &Row) -> Result<QueueRow, StoreFault> {
        Ok(QueueRow {
            name: text_at(row, 0)?,
            lifecycle: text_at(row, 1)?,
            level: nullable_at(row, 2)?,
        })
    }
}

/// The queues, by name. `Mismatch` where a row is no queue, `Refused` where the store or memory
/// refuses it.
pub fn queues<S: Alter>(alloc: Global, tables: &mut Tables<S>) -> Result<Vec<QueueRow>, StoreFault>
    ensures read { Reads (λ c xs. AreOrdered by_name c.queues xs.items)
        (seen S.Store tables.old) (seen S.Store tables.new) result }
    ensures tested { TestsQueues
        (seen S.Store tables.old) (seen S.Store tables.new) result }
{
    select_all(
        alloc,
        tables,
        "SELECT name, lifecycle, level FROM queue ORDER BY name",
        &[],
    )
}

/// The queue with that name, or none. `Mismatch` where its row is no queue, `Refused` where the
/// store or memory refuses it, or there are two.
pub fn queue_named<S: Alter>(
    tables: &mut Tables<S>,
    name: &Text,
) -> Result<Option<QueueRow>, StoreFault>
    ensures read { Reads (λ c q. option_to_list q ≡ filter (is_named name.now) c.queues)
        (seen S.Store tables.old) (seen S.Store tables.new) result }
    ensures mismatch { MismatchesInQueues
        (seen S.Store tables.old) (seen S.Store tables.new) result }
{
    select_one(
        tables,
        "SELECT name, lifecycle, level FROM queue WHERE name = ?1",
        &[words(name)],
    )
}

/// How many queues there are. `Refused` where the store or memory refuses it, or there are 2^32.
pub fn queue_count<S: Alter>(tables: &mut Tables<S>) -> Result<u32, StoreFault>
    ensures read { Reads (λ c n. n ≡ length c.queues)
        (seen S.Store tables.old) (seen S.Store tables.new) result }
    ensures fault { IfErr result (λ e. e ≡ StoreFault.Refused) }
{
    match select_one(tables, "SELECT count(*) FROM queue", &[]) {
        Ok(Some(count)) => Ok(count),
        Ok(None) | Err(_) => Err(StoreFault::Refused),
    }
}

impl Put for QueueRow {
    ghost put_in = { add_queue };

    fn put<S: Alter>(&self, tx: &mut Transaction<'_, S>) -> Result<(), StoreFault> {
        run_on_one(
            tx,
            "INSERT INTO queue (name, lifecycle, level) VALUES (?1, ?2, ?3)",
            &[
                words(&self.name),
                words(&self.lifecycle),
                nullable(&self.level),
            ],
        )
    }
}
