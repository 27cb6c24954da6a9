//! Laws over two desks and their tables, each as the contract of a function that does nothing. They
//! speak of the words of `execute_all`, of `stream`, of `find`, of `queue_loads` and of
//! `linked_rows` alone, and so of each list of commands that is executed, of each list of requests
//! that is written row by row, of each search, of what queues have open, and of the rows of linked
//! requests.
ghost use Rattle.std.specs.Prelude.{ℕ, List, Option};
ghost use Rattle.settings_core.specs.declared.settings.Settings.{Settings};
ghost use Rattle.desk_model.specs.Step.{Ask};
ghost use Rattle.desk_model.specs.declared.answer.Links.{Links};
ghost use Rattle.find_core.specs.declared.search.Place.{Place};
ghost use Rattle.find_core.specs.declared.search.Search.{Search};
ghost use Rattle.service_core.specs.Alike.{SameToCaller, WritesAlike};
ghost use Rattle.service_core.specs.Finding.{FindsAlike};
ghost use Rattle.service_core.specs.LinkedRows.{LinkedAlike};
ghost use Rattle.service_core.specs.Loading.{LoadsAlike};

use store_core::Backend;

/// Nothing leaks by reading: two desks that a caller sees alike give that caller equal answers, for
/// each list of the caller's reading commands, where none was out of memory.
pub fn noninterference_law<S: Backend, T: Backend>()
    ensures { (settings : Settings) (caller : List ℕ) (asks : List Ask)
        → SameToCaller S.Store T.Store settings caller asks }
{}

/// Nothing leaks by writing row by row: two desks that a caller sees alike write that caller one
/// text, where no write failed and none was out of memory.
pub fn written_noninterference_law<S: Backend, T: Backend>()
    ensures { (settings : Settings) (ask : Ask) → WritesAlike S.Store T.Store settings ask }
{}

/// Nothing leaks by searching: two desks that a caller sees alike give that caller equal findings,
/// where neither was out of memory.
pub fn found_alike_law<S: Backend, T: Backend>()
    ensures { (settings : Settings) (at : ℕ) (caller : List ℕ) (search : Search) (limit : ℕ)
        (after : Option Place)
        → FindsAlike S.Store T.Store settings at caller search limit after }
{}

/// Nothing leaks by counting: two desks that a caller sees alike tell that caller the same of what
/// the queues have open, where neither was out of memory.
pub fn loads_alike_law<S: Backend, T: Backend>()
    ensures { (settings : Settings) (at : ℕ) (caller : List ℕ)
        → LoadsAlike S.Store T.Store settings at caller }
{}

/// Nothing leaks by links: two desks that a caller sees alike tell that caller the same rows of
/// linked requests, where neither was out of memory.
pub fn linked_alike_law<S: Backend, T: Backend>()
    ensures { (settings : Settings) (caller : List ℕ) (links : Links)
        → LinkedAlike S.Store T.Store settings caller links }
{}
