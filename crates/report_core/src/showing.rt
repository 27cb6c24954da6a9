//! Which rows a person may show.
ghost use Rattle.std.specs.Prelude.{◌≡◌, ℕ, List};
ghost use Rattle.desk_model.specs.Watchers as watchers;
ghost use Rattle.desk_model.specs.declared.rows.WatchRole.{WatchRole};
ghost use Rattle.report_core.specs.Rows.{RowsRise, WatchesRise, shown_by};

use desk_model::{RequestRow, Watcher, may_show};
use hours_core::Minute;
use settings_core::Settings;

/// Those of the rows that a person may show. The watches are the person's own, in the order of
/// their requests; the watches of others don't count.
pub(crate) fn shown(
    settings: &Settings,
    person: &str,
    watches: &[Watcher],
    mut rows: Vec<(RequestRow, Option<Minute>)>,
) -> Vec<(RequestRow, Option<Minute>)>
    ensures shown { WatchesRise watches.now
        → result.items ≡ shown_by settings.now person.now watches.now rows.items }
    ensures rise { WatchesRise watches.now → RowsRise rows.items → RowsRise result.items }
{
    rows.retain(|dated| is_shown(settings, person, watches, &dated.0));
    rows
}

/// Whether a person may show a request, by watches in the order of their requests.
pub fn is_shown(settings: &Settings, person: &str, watches: &[Watcher], row: &RequestRow) -> bool
    ensures { WatchesRise watches.now
        → result ≡ watchers.may_show_by settings.now person.now row.now watches.now }
{
    may_show(settings, person, row, watches_of(watches, row.id))
}

/// The watches of that request, of watches in the order of their requests.
pub fn watches_of(watches: &[Watcher], id: u32) -> &[Watcher]
    ensures { WatchesRise watches.now
        → (person : List ℕ) (role : WatchRole)
        → watchers.is_watching person id role result.now
        ≡ watchers.is_watching person id role watches.now }
{
    let start = watches.partition_point(|watch| watch.id < id);
    let rest = &watches[start..];
    let end = rest.partition_point(|watch| watch.id <= id);
    &rest[..end]
}
