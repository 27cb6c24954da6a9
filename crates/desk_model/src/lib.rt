//! The vocabulary of a desk: rows; commands, and the facts that each looks at; answers, refusals
//! and changes; who may see what; and when a request is due.
//!
//! `Command::scope` is what a command looks at, `topic` what a reading is about. `Change::dated`
//! gives a change the stays of the request whose row it puts, and its due moment; `stays_of` are
//! those of a history.
//!
//! `specs/` defines the desk and what each command does to it, and `desk_core` decides by that:
//!
//! | File | Defines |
//! |---|---|
//! | `Desk`, `IsDesk` | the desk, and a well-formed one |
//! | `Plan`, `Condition`, `Entries`, `Change` | what there is to a command, and what a change does |
//! | `Commands`, `Commands/NAME` | the plan of each command; a file for each that changes the desk |
//! | `Readings`, `Readings/NAME` | what each reading answers, with due moments and order |
//! | `Scope`, `Facts` | what a command looks at, and what it sees |
//! | `Step` | `guard`, `effect`, a command, a run of commands |
//! | `Stays`, `Dated`, `Due`, `View` | stays in statuses; due moments; what a caller may see |
//!
//! A well-formed desk has its queues in the order of their names. Requests and entries are numbered
//! from 1 without gaps. The persons of each role rise, and so do links. Each request's queue is
//! there, and both ends of each link.
#![tactic(auto)]

pub mod answer;
pub mod call;
pub mod change;
pub mod command;
pub mod due;
pub mod facts;
pub mod lifecycles;
pub mod names;
pub mod refusal;
pub mod revised;
pub mod rights;
pub mod rows;
pub mod scope;
pub mod stays;

pub use answer::{Answer, Dossier, LateLine, Line, Links, Load, Shown};
pub use call::Call;
pub use change::Change;
pub use command::Command;
pub use due::{due_of, is_live};
pub use facts::{Dependency, Facts, SeenRequest};
pub use names::in_byte_order;
pub use refusal::Refusal;
pub use rights::{is_role, may_show, sees_queue};
pub use rows::{
    Entry, EntryKind, LinkKind, LinkRow, QueueRow, RequestRow, Turn, WatchRole, Watcher,
};
pub use scope::{Scope, Topic};
pub use stays::stays_of;
