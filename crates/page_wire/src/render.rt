//! What a page asks of the desk, and its reply.
ghost use Rattle.std.specs.Prelude.{◌≡◌, [], IfOk};
ghost use Rattle.store_tables.specs.Calls.{LeavesTables};
ghost use Rattle.service_core.specs.Seen.{settings_of, tables_of};
ghost use Rattle.find_form.specs.Form.{filled};
ghost use Rattle.find_form.specs.Shown.{is_back};
ghost use Rattle.find_form.specs.SearchFields.{search_of};
ghost use Rattle.page_wire.specs.Replies.{find_fault_reply, find_reply, is_no_memory, queue_query};
ghost use Rattle.page_wire.specs.Steps.{
  Finds,
  FindSteps,
  Looked,
  LookedBy,
  RowsOn,
  SearchSteps,
  SearchFormSteps,
  home_searches,
};

use crate::pages::{
    find_fault_reply, find_reply, home_reply, new_reply, request_reply, workload_reply,
};
use desk_core::{Command, Dossier, Refusal, RequestRow};
use find_core::{HomeSearches, Search};
use find_form::{
    FindFault, FindForm, PAGE_ROWS, Start, asked_by, empty_form, form_of, owned_by, search_of,
    unowned,
};
use hours_core::Minute;
use page_routes::Page;
use service_core::Desk;
use std::alloc::{AllocError, Global};
use store_core::Backend;
use text_core::{Sequence, Text};

/// What a page asks of the desk, and the reply with what came of it. Out of memory the desk stays.
pub(crate) fn render_page<S: Backend>(
    alloc: Global,
    caller: &str,
    page: &Page,
    moment: Minute,
    desk: &mut Desk<S>,
) -> Result<Vec<u8>, AllocError>
    ensures { Looked S.Store desk.old desk.new moment caller.now page.now result }
{
    match page {
        Page::Home => home(alloc, caller, moment, desk),
        Page::Queue(name) => queue(alloc, name.as_str(), caller, moment, desk),
        Page::New(name) => new(alloc, name.as_str(), caller, moment, desk),
        Page::Request(id) => request(alloc, *id, caller, moment, desk),
        Page::Overdue => overdue(alloc, caller, moment, desk),
        Page::Workload => workload(alloc, caller, moment, desk),
        Page::Find { query, start } => find(alloc, query.as_str(), *start, caller, moment, desk),
    }
}

/// The most rows of each list of the first page.
const HOME_ROWS: u32 = 20;

fn home<S: Backend>(
    alloc: Global,
    caller: &str,
    moment: Minute,
    desk: &mut Desk<S>,
) -> Result<Vec<u8>, AllocError>
    ensures { Looked S.Store desk.old desk.new moment caller.now Page.Home result }
{
    match home_searches(alloc, caller) {
        Ok(searches) => {
            let told = desk.home(alloc, moment.get(), caller, &searches, HOME_ROWS);
            drop(searches);
            let reply = home_reply(alloc, desk.settings(), caller, moment, &told);
            drop(told);
            reply
        }
        Err(refused) => Err(refused),
    }
}

/// The searches of the first page, each for what is open.
fn home_searches(alloc: Global, caller: &str) -> Result<HomeSearches, AllocError>
    ensures { IfOk result (λ searches. searches ≡ home_searches caller.now) }
{
    let own = owned_by(alloc, caller)?;
    let asked = asked_by(alloc, caller)?;
    let free = unowned(alloc)?;
    Ok(HomeSearches { own, asked, free })
}

/// The page of a queue: the search for what is open in it.
fn queue<S: Backend>(
    alloc: Global,
    name: &str,
    caller: &str,
    moment: Minute,
    desk: &mut Desk<S>,
) -> Result<Vec<u8>, AllocError>
    ensures { Looked S.Store desk.old desk.new moment caller.now (Page.Queue name.now) result }
{
    match queue_query(alloc, name) {
        Ok(query) => {
            let reply = find(alloc, query.as_str(), Start::First, caller, moment, desk);
            drop(query);
            reply
        }
        Err(refused) => Err(refused),
    }
}

fn queue_query(alloc: Global, name: &str) -> Result<Text, AllocError>
    ensures { IfOk result (λ query. query ≡ queue_query name.now) }
{
    let query = format!(in alloc; "queue={name}&state=open")?;
    Ok(Text::from(query))
}

/// The page of what the fields of an address ask for, from there on.
fn find<S: Backend>(
    alloc: Global,
    query: &str,
    start: Start,
    caller: &str,
    moment: Minute,
    desk: &mut Desk<S>,
) -> Result<Vec<u8>, AllocError>
    ensures { LookedBy S.Store desk.old desk.new
        (FindSteps (settings_of S.Store desk.old) moment caller.now query.now start) result }
{
    match form_of(alloc, query) {
        Ok(form) => typed(alloc, query, start, form, caller, moment, desk),
        Err(refused) => Err(refused),
    }
}

/// The page of what was typed, if the fields are those of a search.
fn typed<S: Backend>(
    alloc: Global,
    query: &str,
    start: Start,
    form: Option<FindForm>,
    caller: &str,
    moment: Minute,
    desk: &mut Desk<S>,
) -> Result<Vec<u8>, AllocError>
    ensures { LookedBy S.Store desk.old desk.new (SearchFormSteps (settings_of S.Store desk.old) moment
        caller.now query.now start form) result }
{
    match form {
        Some(form) => {
            let reply = search(alloc, query, start, &form, caller, moment, desk);
            drop(form);
            reply
        }
        None => no_search(alloc, caller, moment),
    }
}

/// The page of an address that is no search.
fn no_search(alloc: Global, caller: &str, moment: Minute) -> Result<Vec<u8>, AllocError>
    ensures { IfOk result (λ out. out.items
        ≡ find_fault_reply caller.now moment FindFault.Fields (filled [])) }
{
    let form = empty_form(alloc)?;
    find_fault_reply(alloc, caller, moment, FindFault::Fields, &form)
}

/// The page of what was typed, from there on.
fn search<S: Backend>(
    alloc: Global,
    query: &str,
    start: Start,
    form: &FindForm,
    caller: &str,
    moment: Minute,
    desk: &mut Desk<S>,
) -> Result<Vec<u8>, AllocError>
    ensures { LookedBy S.Store desk.old desk.new (SearchSteps (settings_of S.Store desk.old) moment
        caller.now query.now start form.now (search_of caller.now (is_back start) form.now)) result }
{
    match search_of(alloc, caller, start.is_back(), form) {
        Ok(search) => {
            let reply = found(alloc, query, start, form, &search, caller, moment, desk);
            drop(search);
            reply
        }
        Err(fault) => {
            if is_no_memory(fault) {
                Err(AllocError)
            } else {
                find_fault_reply(alloc, caller, moment, fault, form)
            }
        }
    }
}

fn is_no_memory(fault: FindFault) -> bool
    ensures { result ≡ is_no_memory fault }
{
    matches!(fault, FindFault::NoMemory)
}

/// The page of what is found, from there on.
fn found<S: Backend>(
    alloc: Global,
    query: &str,
    start: Start,
    form: &FindForm,
    search: &Search,
    caller: &str,
    moment: Minute,
    desk: &mut Desk<S>,
) -> Result<Vec<u8>, AllocError>
    ensures { LookedBy S.Store desk.old desk.new (Finds (settings_of S.Store desk.old) moment caller.now
        start search.now (find_reply caller.now moment query.now start form.now search.now.order))
        result }
{
    let limit = PAGE_ROWS + 1;
    let result = desk.find(alloc, moment.get(), caller, search, limit, start.place());
    find_reply(
        alloc,
        caller,
        moment,
        query,
        start,
        form,
        search.order,
        result,
    )
}

fn new<S: Backend>(
    alloc: Global,
    name: &str,
    caller: &str,
    moment: Minute,
    desk: &mut Desk<S>,
) -> Result<Vec<u8>, AllocError>
    ensures { Looked S.Store desk.old desk.new moment caller.now (Page.New name.now) result }
{
    let outcome = desk.execute(alloc, moment.get(), caller, &Command::Queues);
    let reply = new_reply(alloc, desk.settings(), name, caller, moment, &outcome);
    drop(outcome);
    reply
}

fn request<S: Backend>(
    alloc: Global,
    id: u32,
    caller: &str,
    moment: Minute,
    desk: &mut Desk<S>,
) -> Result<Vec<u8>, AllocError>
    ensures { Looked S.Store desk.old desk.new moment caller.now (Page.Request id) result }
{
    let dossier = desk.dossier(alloc, moment.get(), caller, id);
    let rows = rows_of(alloc, caller, &dossier, desk);
    let reply = request_reply(alloc, desk.settings(), caller, moment, &dossier, &rows);
    drop(rows);
    drop(dossier);
    reply
}

/// The rows of the requests that a dossier names, or none where there is no dossier.
#[tactic(auto, using(store_tables::proofs::Spared::unread))]
fn rows_of<S: Backend>(
    alloc: Global,
    caller: &str,
    dossier: &Result<Dossier, Refusal>,
    desk: &mut Desk<S>,
) -> Result<Sequence<RequestRow>, Refusal>
    ensures told { RowsOn (settings_of S.Store desk.old) caller.now dossier.now result
        (tables_of S.Store desk.old) (tables_of S.Store desk.new) }
    ensures kept { LeavesTables (tables_of S.Store desk.old) (tables_of S.Store desk.new) }
    ensures same { settings_of S.Store desk.new ≡ settings_of S.Store desk.old }
{
    match dossier {
        Ok(dossier) => desk.linked_rows(alloc, caller, &dossier.shown.links),
        Err(_) => Ok(Sequence::from(Vec::new(alloc))),
    }
}

/// The fields of the search for what is late, the most overdue first.
const LATE_QUERY: &str = "late=yes&order=due";

/// The page of what is late: the search for it.
fn overdue<S: Backend>(
    alloc: Global,
    caller: &str,
    moment: Minute,
    desk: &mut Desk<S>,
) -> Result<Vec<u8>, AllocError>
    ensures { Looked S.Store desk.old desk.new moment caller.now Page.Overdue result }
{
    find(alloc, LATE_QUERY, Start::First, caller, moment, desk)
}

fn workload<S: Backend>(
    alloc: Global,
    caller: &str,
    moment: Minute,
    desk: &mut Desk<S>,
) -> Result<Vec<u8>, AllocError>
    ensures { Looked S.Store desk.old desk.new moment caller.now Page.Workload result }
{
    let outcome = desk.execute(alloc, moment.get(), caller, &Command::Workload);
    let reply = workload_reply(alloc, caller, moment, &outcome);
    drop(outcome);
    reply
}
