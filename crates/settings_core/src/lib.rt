//! The settings that a desk runs by, as a text in TOML states them.
//!
//! A text has the keys that the tables of `settings_form` list. Where it is silent, settings know
//! one person, `root`, who holds every right, one lifecycle and one calendar, both named `default`,
//! and no level.
//!
//! `Settings::read` gives settings that the bytes state, part by part, or the fault with the least
//! number over the whole text. `Settings::built_in` are those of no bytes. `people`, `lifecycle` and
//! their like give the named part, and `SettingsFault::inner` the fault inside another. What a name,
//! a token and a limit have to be stands in `known`, `names`, `tokens` and `limits`, for who tells
//! which of them has a fault.
#![tactic(auto)]

pub mod calendars;
mod fault;
pub mod known;
pub mod laws;
mod levels;
mod lifecycles;
pub mod limits;
mod named;
pub mod names;
mod people;
mod settings;
pub mod stated;
pub mod tokens;

pub use fault::SettingsFault;
pub use named::Named;
pub use settings::Settings;
