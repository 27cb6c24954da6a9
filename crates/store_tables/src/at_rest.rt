//! Tables outside of a transaction.
ghost use Rattle.store_tables.specs.Seen.{seen};
ghost use Rattle.store_tables.specs.Stands.{IsSettled};

use crate::tables::Tables;
use sqlite::Alter;

impl<S: Alter> Tables<S> {
    /// Nothing is done: outside of a transaction what the tables show is what was committed.
    pub(crate) fn at_rest(&self)
        ensures { IsSettled (seen S.Store self.now) }
    {
        let _ = self.conn.is_autocommit();
    }
}
