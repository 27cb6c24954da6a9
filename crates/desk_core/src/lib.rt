//! What each command decides: the first refusal that is called for, or the change that it makes;
//! and what holds of every command.
//!
//! Nothing here keeps a row. A caller hands in the facts that a command looks at, and applies the
//! change. Rows, commands, facts, answers, refusals and changes stand in `desk_model`, and are
//! passed on.
//!
//! `refusal_without_facts` has the refusals that need no look at a desk: of the caller, of the moment,
//! and of the command's words alone. `decide_on_facts` has the others, and `decide` all. Each clause
//! of a decision holds on every desk with the command's facts, well formed or not:
//!
//! | Clause | Says |
//! |---|---|
//! | `refuses` | a refusal, but `Unavailable`, is the first one of `guard` |
//! | `accepts` | a change is answered only where `guard` refuses nothing, and leads to `effect` |
//! | `planned` | the result is that of the command's plan |
//! | `reads` | the change of a reading command is none |
//! | `named` | the right that a refusal names is a right's name |
//!
//! `laws` has what holds of every step, each in a function without a body.
#![tactic(auto)]

pub mod beforehand;
pub mod decision;
pub mod laws;

pub use beforehand::refusal_without_facts;
pub use decision::{decide, decide_on_facts};
pub use desk_model::{
    Answer, Call, Change, Command, Dependency, Dossier, Entry, EntryKind, Facts, LateLine, Line,
    LinkKind, LinkRow, Links, Load, QueueRow, Refusal, RequestRow, Scope, SeenRequest, Shown,
    Topic, Turn, WatchRole, Watcher, due_of, is_role, may_show, sees_queue,
};
