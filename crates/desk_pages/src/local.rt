//! Local time, which stands beside a moment.
ghost use Rattle.std.specs.Prelude.{◌≡◌, ◌++◌, OnOk};
ghost use Rattle.std.specs.Option.{option_map};
ghost use Rattle.page_core.specs.Page.{page_bytes};
ghost use Rattle.desk_pages.specs.Local as form;

use crate::markup::facts::LOCAL;
use hours_core::{Minute, Zone};
use page_core::{Value, fill};
use std::alloc::AllocError;

/// What clocks show at a moment in a zone, where there are both.
pub(crate) fn local_at(zone: Option<&Zone>, moment: Option<Minute>) -> Option<Minute>
    ensures { result ≡ form.local_at (option_map (λ z. z.now) zone.entry) moment }
{
    match (zone, moment) {
        (Some(zone), Some(moment)) => zone.local_time(moment),
        _ => None,
    }
}

/// Puts local time, if there is any.
#[tactic(auto, unfolding(crate::specs::Local::local))]
pub(crate) fn put_local(out: &mut Vec<u8>, shown: Option<Minute>) -> Result<(), AllocError>
    ensures { OnOk result (out.new.items ≡ out.old.items ++ page_bytes (form.local shown)) }
{
    match shown {
        Some(shown) => fill(out, LOCAL, &[Value::Day(shown), Value::Clock(shown)], &[]),
        None => Ok(()),
    }
}
