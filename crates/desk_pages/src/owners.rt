//! The names that are suggested for a request's next owner.
ghost use Rattle.std.specs.Prelude.{◌≡◌, ◌++◌, IfOk, OnOk};
ghost use Rattle.page_core.specs.Page.{page_bytes};
ghost use Rattle.desk_pages.specs.Owners as form;

use crate::markup::people::{OWNERS_END, OWNERS_TOP};
use crate::people::put_persons;
use crate::rights::may_own;
use desk_model::Shown;
use page_core::fill;
use settings_core::Settings;
use std::alloc::{AllocError, Global};
use text_core::Text;

/// The most names that are suggested.
const MOST: usize = 200;

/// Puts the names of the first persons who may own the request, where the caller may own it: who
/// does the work isn't told to others.
pub(crate) fn put_owners(
    alloc: Global,
    out: &mut Vec<u8>,
    caller: &str,
    settings: &Settings,
    shown: &Shown,
) -> Result<(), AllocError>
    ensures { OnOk result (out.new.items ≡ out.old.items
        ++ page_bytes (form.owners caller.now settings.now shown.now)) }
{
    fill(out, OWNERS_TOP, &[], &[])?;
    if may_own(settings, shown, caller) {
        let names = suggested(alloc, settings, shown)?;
        put_persons(out, names.as_slice())?;
    }
    fill(out, OWNERS_END, &[], &[])
}

/// The first persons who may own the request.
fn suggested(alloc: Global, settings: &Settings, shown: &Shown) -> Result<Vec<Text>, AllocError>
    ensures { IfOk result (λ names. names.items ≡ form.suggested settings.now shown.now) }
{
    let mut names = Vec::new(alloc);
    for person in settings.people().parts().persons.as_slice() {
        if may_own(settings, shown, person.as_str()) {
            names.push(person.clone()?)?;
        }
    }
    names.truncate(MOST);
    Ok(names)
}
