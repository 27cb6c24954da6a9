//! The stays of a request, as the tables keep them.
ghost use Rattle.std.specs.Prelude.{◌≡◌};
ghost use Rattle.desk_model.specs.Facts.{stays_at};
ghost use Rattle.store_tables.specs.declared.fault.StoreFault.{StoreFault};
ghost use Rattle.store_tables.specs.Readings.{OfDesk, Reads};
ghost use Rattle.store_core.specs.Found as found;
ghost use Rattle.store_tables.specs.Seen.{seen};

use hours_core::Stay;
use sqlite::Alter;
use std::alloc::Global;
use store_tables::tables::stay;
use store_tables::{StoreFault, Tables};
use text_core::Sequence;

/// The stays of a request that is there; none are read of one that isn't.
pub(crate) fn stays_if<S: Alter>(
    alloc: Global,
    tables: &mut Tables<S>,
    id: u32,
    is_there: bool,
) -> Result<Sequence<Stay>, StoreFault>
    ensures { Reads (OfDesk (λ desk stays. stays ≡ found.stays_if is_there (stays_at desk id)))
        (seen S.Store tables.old) (seen S.Store tables.new) result }
{
    if is_there {
        let stays = stay::stays_of(alloc, tables, id)?;
        Ok(Sequence::from(stays))
    } else {
        Ok(Sequence::from(Vec::new(alloc)))
    }
}
