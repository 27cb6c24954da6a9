//! Days of the calendar, by the number of days since 1970-01-01.
#![tactic(auto)]

mod dates;
mod numbers;

pub use dates::{civil_date, date_of_day, is_date};
pub use numbers::{day_number, first_day};
