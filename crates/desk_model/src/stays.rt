//! The stays of a request in its statuses, read off its history.

ghost use Rattle.std.specs.Prelude.{◌≡◌, ◌++◌, List, IfOk, OnOk};
ghost use Rattle.desk_model.specs.Stays as spec;
ghost use Rattle.desk_model.specs.declared.rows.Entry as entry;

use crate::rows::Entry;
use hours_core::{Minute, Stay};
use std::alloc::{AllocError, Global};

/// The stays of a history in order. The request's filing begins one, and each move of its status
/// ends the last and begins the next.
pub fn stays_of(alloc: Global, entries: &[Entry]) -> Result<Vec<Stay>, AllocError>
    ensures { IfOk result (λ v. v.items ≡ spec.stays_of entries.now) }
{
    stays_after(Vec::new(alloc), entries)
}

/// The stays of a history in order, of which the entries so far made these stays, and to which these
/// entries are added.
pub fn stays_after(mut stays: Vec<Stay>, entries: &[Entry]) -> Result<Vec<Stay>, AllocError>
    ensures { IfOk result (λ v. v.items ≡ spec.stays_after stays.items entries.now) }
{
    let mut last = take_last(&mut stays);
    for entry in entries {
        if entry.kind.begins_stay() {
            end_last(&mut stays, last, Some(entry.moment))?;
            last = Some(Stay {
                status: entry.body.clone()?,
                from: entry.moment,
                until: None,
            });
        }
    }
    end_last(&mut stays, last, None)?;
    Ok(stays)
}

/// Takes the last stay, if there is one, so that it may get its end.
fn take_last(stays: &mut Vec<Stay>) -> Option<Stay>
    ensures { (entries : List entry.Entry) → stays.new.items ++ spec.stays_on result entries
        ≡ spec.stays_after stays.old.items entries }
{
    stays.pop()
}

/// Adds the last stay, if there is one, which ends at the moment.
fn end_last(
    stays: &mut Vec<Stay>,
    last: Option<Stay>,
    until: Option<Minute>,
) -> Result<(), AllocError>
    ensures { OnOk result (stays.new.items ≡ stays.old.items ++ spec.ended last until) }
{
    if let Some(stay) = last {
        stays.push(Stay { until, ..stay })?;
    }
    Ok(())
}
