//! The links of a request, as far as the caller may show what is at their other ends.
ghost use Rattle.std.specs.Prelude.{◌≡◌, IfErr, IfOk, filter};
ghost use Rattle.desk_model.specs.Links.{is_kind};
ghost use Rattle.desk_model.specs.Readings.Show as showing;
ghost use Rattle.desk_model.specs.Rights.{is_shown};
ghost use Rattle.store_tables.specs.Calls.{LeavesTables, Tells};
ghost use Rattle.store_core.specs.Seen.{state_of};
ghost use Rattle.service_core.specs.Shown as shown;
ghost use Rattle.service_core.specs.Shown.{AreAnswers};

use desk_core::{LinkKind, LinkRow, Links, Refusal};
use settings_core::Settings;
use std::alloc::{AllocError, Global};
use std::collections::BTreeMap;
use store_core::{Backend, Store};
use text_core::Sequence;

/// An end of a link.
#[derive(Clone, Copy)]
pub(crate) enum End {
    Source,
    Target,
}

impl End {
    /// The number of the request at this end.
    fn number(self, link: &LinkRow) -> u32
        ensures { result ≡ shown.number_at self link.now }
    {
        match self {
            End::Source => link.source,
            End::Target => link.target,
        }
    }
}

/// Of each request that was asked for, by its number, whether the caller may show it.
type Asked = BTreeMap<u32, bool>;

/// The requests that one is linked with, as far as the caller may show them. Each is asked for
/// once, however many links lead to it and from it. `Unavailable` where memory or the store
/// refused. The tables stay as they are.
pub(crate) fn links_of<S: Backend>(
    alloc: Global,
    store: &mut Store<S>,
    settings: &Settings,
    caller: &str,
    id: u32,
) -> Result<Links, Refusal>
    ensures told { Tells (λ desk links. links
        ≡ showing.links_of settings.now caller.now desk id)
        (state_of S.Store store.old) (state_of S.Store store.new) result }
    ensures kept { LeavesTables (state_of S.Store store.old) (state_of S.Store store.new) }
    ensures fault { IfErr result (λ refusal. refusal ≡ Refusal.Unavailable) }
{
    let mut asked = BTreeMap::new(alloc);
    let from = store.links_from(alloc, id)?;
    let leading = from.as_slice();
    let targets = shown_at(
        alloc,
        store,
        settings,
        caller,
        End::Target,
        leading,
        &mut asked,
    )?;
    let to = store.links_to(alloc, id)?;
    let ending = to.as_slice();
    let sources = shown_at(
        alloc,
        store,
        settings,
        caller,
        End::Source,
        ending,
        &mut asked,
    )?;
    let links = links_by(alloc, targets.as_slice(), sources.as_slice())?;
    Ok(links)
}

/// The links of which the caller may show the request at this end. Who was asked for stays asked
/// for, with the answer.
fn shown_at<S: Backend>(
    alloc: Global,
    store: &mut Store<S>,
    settings: &Settings,
    caller: &str,
    end: End,
    links: &[LinkRow],
    asked: &mut Asked,
) -> Result<Vec<LinkRow>, Refusal>
    ensures told { Tells (λ desk found. AreAnswers settings.now caller.now desk asked.old
        → (found.items ≡ filter (shown.is_shown_at settings.now caller.now desk end) links.now)
        × AreAnswers settings.now caller.now desk asked.new)
        (state_of S.Store store.old) (state_of S.Store store.new) result }
    ensures kept { LeavesTables (state_of S.Store store.old) (state_of S.Store store.new) }
    ensures fault { IfErr result (λ refusal. refusal ≡ Refusal.Unavailable) }
{
    let mut found = Vec::new(alloc);
    for link in links {
        let number = end.number(link);
        let shown = is_shown_once(alloc, store, settings, caller, number, asked)?;
        if shown {
            found.push(*link)?;
        }
    }
    Ok(found)
}

/// Whether the request with that number is there and the caller may show it: as it was answered
/// before, if it was asked for. `Unavailable` where memory or the store refused. The tables stay as
/// they are.
fn is_shown_once<S: Backend>(
    alloc: Global,
    store: &mut Store<S>,
    settings: &Settings,
    caller: &str,
    number: u32,
    asked: &mut Asked,
) -> Result<bool, Refusal>
    ensures told { Tells (λ desk shown. AreAnswers settings.now caller.now desk asked.old
        → (shown ≡ is_shown settings.now caller.now desk number)
        × AreAnswers settings.now caller.now desk asked.new)
        (state_of S.Store store.old) (state_of S.Store store.new) result }
    ensures kept { LeavesTables (state_of S.Store store.old) (state_of S.Store store.new) }
    ensures fault { IfErr result (λ refusal. refusal ≡ Refusal.Unavailable) }
{
    match asked.get(&number).copied() {
        Some(shown) => Ok(shown),
        None => {
            let shown = store.is_shown(alloc, settings, caller, number)?;
            asked.insert(number, shown)?;
            Ok(shown)
        }
    }
}

/// The six lists of numbers, of the links that lead from a request and of those that lead to it.
fn links_by(alloc: Global, from: &[LinkRow], to: &[LinkRow]) -> Result<Links, AllocError>
    ensures { IfOk result (λ links. links ≡ shown.links_by from.now to.now) }
{
    Ok(Links {
        depends_on: numbers_at(alloc, End::Target, LinkKind::DependsOn, from)?,
        depended_on_by: numbers_at(alloc, End::Source, LinkKind::DependsOn, to)?,
        member_of: numbers_at(alloc, End::Target, LinkKind::MemberOf, from)?,
        has_member: numbers_at(alloc, End::Source, LinkKind::MemberOf, to)?,
        refers_to: numbers_at(alloc, End::Target, LinkKind::RefersTo, from)?,
        referred_to_by: numbers_at(alloc, End::Source, LinkKind::RefersTo, to)?,
    })
}

/// The numbers at that end of the links of a kind.
fn numbers_at(
    alloc: Global,
    end: End,
    kind: LinkKind,
    links: &[LinkRow],
) -> Result<Sequence<u32>, AllocError>
    ensures { IfOk result (λ numbers. numbers ≡ shown.numbers_at end kind links.now) }
{
    let mut numbers = Vec::new(alloc);
    for link in links {
        if is_of(link, kind) {
            numbers.push(end.number(link))?;
        }
    }
    Ok(Sequence::from(numbers))
}

/// Whether the link is of this kind.
fn is_of(link: &LinkRow, kind: LinkKind) -> bool
    ensures { result ≡ is_kind kind link.now.kind }
{
    kind == link.kind
}
