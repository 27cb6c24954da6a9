//! The links between requests.
ghost use Rattle.std.specs.Prelude.{◌≢◌, IfErr};
ghost use Rattle.sqlite.specs.Values.{bound, bound_value};
ghost use Rattle.store_tables.specs.Calls.{Leaves, ReadsAlone, ReadsRows};
ghost use Rattle.sqlite_value.specs.Value.{owned};
ghost use Rattle.store_tables.specs.Values.{MismatchesAt, NeedsAt, ReadsAt, count_value};
ghost use Rattle.desk_model.specs.Links.{kind_number};
ghost use Rattle.store_tables.specs.Contents.Link.{IsLinkKind};
ghost use Rattle.std.specs.Prelude.{◌≡◌, filter, IsPermutation, option_to_list};
ghost use Rattle.store_tables.specs.declared.fault.StoreFault.{StoreFault};
ghost use Rattle.store_tables.specs.Contents.Link.{IsLinkRow, ReadsLink, by_link, ends_at};
ghost use Rattle.store_tables.specs.Contents.Link.{starts_at, by_target};
ghost use Rattle.store_tables.specs.Readings.{MismatchesInLinks, Reads, TestsLinks};
ghost use Rattle.store_tables.specs.Picked.{AreOrdered};
ghost use Rattle.store_tables.specs.Seen.{seen};
ghost use Rattle.store_tables.specs.Contents.Link as chosen;
ghost use Rattle.store_tables.specs.Contents.{add_link, drop_link};

use crate::columns::{number, number_at};
use crate::fault::StoreFault;
use crate::query::{select_all, select_one};
use crate::stored::Stored;
use crate::tables::Tables;
use crate::transaction::run_on_one;
use crate::written::{Put, Take};
use desk_model::{LinkKind, LinkRow};
use sqlite::types::{ToSql, ValueRef};
use sqlite::{Alter, Row, Transaction};
use std::alloc::Global;

/// The statement that makes the table.
pub(crate) const TABLE: &str =
    "CREATE TABLE IF NOT EXISTS link (source INTEGER NOT NULL REFERENCES request(id), kind \
     INTEGER NOT NULL, target INTEGER NOT NULL REFERENCES request(id), PRIMARY KEY (source, \
     kind, target)) STRICT";

impl Stored for LinkRow {
    ghost reads = { ReadsLink };

    ghost is_value = { IsLinkRow };

    fn read(row: &Row) -> Result<LinkRow, StoreFault> {
        Ok(LinkRow {
            source: number_at(row, 0)?,
            kind: link_kind_at(row, 1)?,
            target: number_at(row, 2)?,
        })
    }
}

/// The links that a query shows. `Mismatch` where one of its rows shows
/// none, `Refused` where the store or memory refuses it.
fn link_rows<S: Alter>(
    alloc: Global,
    tables: &mut Tables<S>,
    sql: &str,
    params: &[ValueRef<'_>],
) -> Result<Vec<LinkRow>, StoreFault>
    requires { ReadsAlone sql.now }
    ensures read { ReadsRows ReadsLink IsLinkRow (λ xs. xs.items)
        sql.now (bound params.now) (seen S.Store tables.old) (seen S.Store tables.new) result }
    ensures leaves { Leaves (seen S.Store tables.old) (seen S.Store tables.new) result }
{
    select_all(alloc, tables, sql, params)
}

/// The links, by source, kind and target. `Mismatch` where a row is no link, `Refused` where the
/// store refuses it.
pub fn links<S: Alter>(alloc: Global, tables: &mut Tables<S>) -> Result<Vec<LinkRow>, StoreFault>
    ensures read { Reads (λ c xs.
        AreOrdered by_link c.links xs.items)
        (seen S.Store tables.old) (seen S.Store tables.new) result }
    ensures tested { TestsLinks
        (seen S.Store tables.old) (seen S.Store tables.new) result }
{
    link_rows(
        alloc,
        tables,
        "SELECT source, kind, target FROM link ORDER BY source, kind, target",
        &[],
    )
}

/// The links from a request, by source, kind and target. `Mismatch` where a row is no link,
/// `Refused` where the store or memory refuses it.
pub fn links_from<S: Alter>(
    alloc: Global,
    tables: &mut Tables<S>,
    source: u32,
) -> Result<Vec<LinkRow>, StoreFault>
    ensures read { Reads (λ c xs.
        AreOrdered by_link (filter (starts_at source) c.links) xs.items)
        (seen S.Store tables.old) (seen S.Store tables.new) result }
    ensures mismatch { MismatchesInLinks
        (seen S.Store tables.old) (seen S.Store tables.new) result }
{
    link_rows(
        alloc,
        tables,
        "SELECT source, kind, target FROM link WHERE source = ?1 ORDER BY source, kind, target",
        &[number(source)],
    )
}

/// The links to a request, by source, kind and target. `Mismatch` where a row is no link,
/// `Refused` where the store or memory refuses it.
pub fn links_to<S: Alter>(
    alloc: Global,
    tables: &mut Tables<S>,
    target: u32,
) -> Result<Vec<LinkRow>, StoreFault>
    ensures read { Reads (λ c xs.
        AreOrdered by_link (filter (ends_at target) c.links) xs.items)
        (seen S.Store tables.old) (seen S.Store tables.new) result }
    ensures mismatch { MismatchesInLinks
        (seen S.Store tables.old) (seen S.Store tables.new) result }
{
    let mut links = links_ending(alloc, tables, target)?;
    links.sort_unstable();
    Ok(links)
}

/// The links to a request, in some order. No index leads to them, and to go over the rows takes a
/// quarter less than to go over the key: so they are asked for in the order of their rows.
fn links_ending<S: Alter>(
    alloc: Global,
    tables: &mut Tables<S>,
    target: u32,
) -> Result<Vec<LinkRow>, StoreFault>
    ensures read { Reads (λ c xs. IsPermutation (filter (ends_at target) c.links) xs.items)
        (seen S.Store tables.old) (seen S.Store tables.new) result }
    ensures mismatch { MismatchesInLinks
        (seen S.Store tables.old) (seen S.Store tables.new) result }
{
    link_rows(
        alloc,
        tables,
        "SELECT source, kind, target FROM link WHERE target = ?1 ORDER BY rowid",
        &[number(target)],
    )
}

/// The links of a kind from a request, by target. `Mismatch` where a row is no link, `Refused`
/// where the store or memory refuses it.
pub fn links_of_kind<S: Alter>(
    alloc: Global,
    tables: &mut Tables<S>,
    id: u32,
    kind: LinkKind,
) -> Result<Vec<LinkRow>, StoreFault>
    ensures { Reads (λ c xs.
        AreOrdered by_target (filter (chosen.links_from id kind) c.links) xs.items)
        (seen S.Store tables.old) (seen S.Store tables.new) result }
{
    link_rows(
        alloc,
        tables,
        "SELECT source, kind, target FROM link WHERE source = ?1 AND kind = ?2 ORDER BY target",
        &[number(id), link_kind(kind)],
    )
}

/// The link with those ends and of that kind, or none. `Mismatch` where its row is no link,
/// `Refused` where the store or memory refuses it, or there are two.
pub fn link_like<S: Alter>(
    tables: &mut Tables<S>,
    link: LinkRow,
) -> Result<Option<LinkRow>, StoreFault>
    ensures { Reads (λ c l. option_to_list l ≡ filter (chosen.is_link link) c.links)
        (seen S.Store tables.old) (seen S.Store tables.new) result }
{
    select_one(
        tables,
        "SELECT source, kind, target FROM link WHERE source = ?1 AND kind = ?2 AND target = ?3",
        &[
            number(link.source),
            link_kind(link.kind),
            number(link.target),
        ],
    )
}

/// The kind of a link, to be bound.
fn link_kind<'a>(kind: LinkKind) -> ValueRef<'a>
    ensures { bound_value (owned result) ≡ count_value (kind_number kind) }
{
    match kind {
        LinkKind::DependsOn => 1u32.to_sql(),
        LinkKind::MemberOf => 2u32.to_sql(),
        LinkKind::RefersTo => 3u32.to_sql(),
    }
}

/// The kind of a link in a column.
fn link_kind_at(row: &Row, at: usize) -> Result<LinkKind, StoreFault>
    ensures ok { ReadsAt (λ k. count_value (kind_number k)) row.now at result }
    ensures value { NeedsAt IsLinkKind row.now at result }
    ensures mismatch { MismatchesAt IsLinkKind row.now at result }
    ensures fault { IfErr result (λ e. e ≢ StoreFault.WrongVersion) }
{
    match number_at(row, at)? {
        1 => Ok(LinkKind::DependsOn),
        2 => Ok(LinkKind::MemberOf),
        3 => Ok(LinkKind::RefersTo),
        _ => Err(StoreFault::Mismatch),
    }
}

impl Put for LinkRow {
    ghost put_in = { add_link };

    fn put<S: Alter>(&self, tx: &mut Transaction<'_, S>) -> Result<(), StoreFault> {
        run_on_one(
            tx,
            "INSERT INTO link (source, kind, target) VALUES (?1, ?2, ?3)",
            &[
                number(self.source),
                link_kind(self.kind),
                number(self.target),
            ],
        )
    }
}

impl Take for LinkRow {
    ghost taken_out = { drop_link };

    fn take<S: Alter>(&self, tx: &mut Transaction<'_, S>) -> Result<(), StoreFault> {
        run_on_one(
            tx,
            "DELETE FROM link WHERE source = ?1 AND kind = ?2 AND target = ?3",
            &[
                number(self.source),
                link_kind(self.kind),
                number(self.target),
            ],
        )
    }
}
