//! Which groups list a name.
ghost use Rattle.std.specs.Prelude.{◌≡◌, ◌&&◌, ◌||◌, ◌++◌, ◌∷◌, [], ℕ, List, nat_eq};
ghost use Rattle.std.specs.Prelude.{if◌then◌else◌, IfOk, OnOk};
ghost use Rattle.std.specs.Str.{bytes_eq};
ghost use Rattle.rights_core.specs.Closure as words;
ghost use Rattle.text_core.specs.Texts as texts;

use crate::parts::Group;
use std::alloc::{AllocError, Global};
use std::collections::HashMap;
use text_core::Text;

/// Under each name the places of the groups that list it.
pub(crate) type Listers = HashMap<String, Vec<usize>>;

pub(crate) fn groups_listing(alloc: Global, groups: &[Group]) -> Result<Listers, AllocError>
    ensures { IfOk result (words.IsListers groups.now) }
{
    let mut listers: Listers = HashMap::new(alloc);
    for (place, group) in groups.iter().enumerate() {
        list_members(alloc, &mut listers, group.members.as_slice(), place)?;
    }
    Ok(listers)
}

/// Puts the place under the name of each member.
fn list_members(
    alloc: Global,
    listers: &mut Listers,
    members: &[Text],
    place: usize,
) -> Result<(), AllocError>
    ensures { OnOk result ((name : List ℕ) (q : ℕ) →
        words.has_place (words.places_under listers.new name) q
        ≡ (words.has_place (words.places_under listers.old name) q
        || (nat_eq q place && texts.is_among members.now name))) }
{
    for member in members {
        put(alloc, listers, member.as_str(), place)?;
    }
    Ok(())
}

fn put(alloc: Global, listers: &mut Listers, name: &str, place: usize) -> Result<(), AllocError>
    ensures { OnOk result ((q : List ℕ) → words.places_under listers.new q
        ≡ (if bytes_eq q name.now then words.places_under listers.old q ++ place ∷ []
        else words.places_under listers.old q)) }
{
    let name = String::from_str(alloc, name)?;
    listers.entry(name)?.or_default().push(place)?;
    Ok(())
}

/// The places that are kept under the name.
pub(crate) fn listed<'a>(listers: &'a Listers, name: &str) -> &'a [usize]
    ensures { result.now ≡ words.places_under listers.now name.now }
{
    listers.get(name).map_or(&[], |places| places.as_slice())
}
