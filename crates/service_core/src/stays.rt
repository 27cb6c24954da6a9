//! The stays of one request, among the stays of all.
ghost use Rattle.std.specs.Prelude.{◌≡◌, ℕ, length, List, IfOk};
ghost use Rattle.hours_core.specs.declared.stay.Stay as stay;
ghost use Rattle.service_core.specs.Renewing as renewing;
ghost use Rattle.service_core.specs.Renewing.{AreApart, StaysRise};

use hours_core::Stay;
use std::alloc::{AllocError, Global};

/// The numbers that stand beside stays, and the stays, each in the order of the list. `AllocError`
/// where memory is refused.
pub(crate) fn apart(
    alloc: Global,
    all: Vec<(u32, Stay)>,
) -> Result<(Vec<u32>, Vec<Stay>), AllocError>
    ensures { IfOk result (λ parts. AreApart all.items parts.0.items parts.1.items) }
{
    let numbers = all.iter().map(|one| one.0).collect(alloc)?;
    let stays = all.into_iter().map(|one| one.1).collect(alloc)?;
    Ok((numbers, stays))
}

/// The stays of the request of that number. All stays are in the order of their requests' numbers;
/// `numbers` has that number for each.
pub(crate) fn stays_among<'s>(numbers: &[u32], stays: &'s [Stay], id: u32) -> &'s [Stay]
    requires { length numbers.now ≡ length stays.now }
    ensures { (all : List (ℕ × stay.Stay)) → StaysRise all → AreApart all numbers.now stays.now
        → result.now ≡ renewing.stays_among all id }
{
    let start = numbers.partition_point(|number| *number < id);
    let rest = &numbers[start..];
    let end = rest.partition_point(|number| *number <= id);
    let own = &stays[start..];
    &own[..end]
}
