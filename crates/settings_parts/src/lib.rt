//! The parts of settings, as a text without a fault of form states them.
//!
//! Nothing of such a text is lost: `laws::whole_law`.
#![tactic(auto)]

pub mod calendar;
pub mod laws;
pub mod level;
pub mod lifecycle;
pub mod people;
pub mod values;
