//! People: who is a member of which group, and who holds which right on which queue.
//!
//! `People::build` gives the fault with the least number, or the people of these persons, groups and
//! grants. `member` is true exactly where the person is known and a chain of groups leads there,
//! circles included. Only `build` takes memory: it keeps for each person the places of the groups
//! around it, and each group's place under its name, so that `holds` asks no more groups than there
//! are names with a grant of the right.
#![tactic(auto)]

pub mod checks;
pub mod directory;
mod fault;
mod grant;
mod grants;
mod listers;
mod memberships;
mod outer;
mod parts;
mod people;
mod places;
pub mod right;
mod role;

pub use fault::RightsFault;
pub use grant::{Grant, Subject};
pub use parts::{Group, Parts};
pub use people::People;
pub use role::{Role, Roles};
