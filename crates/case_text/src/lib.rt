//! What programs of cases share: a case is a file `KIND/NAME` that says what is tried and what has
//! to come of it. A program goes over such files and tells of each that it is `ok`, or where what
//! comes of it first differs from what is wanted.
//!
//! A line `=== PART` begins a part, which goes up to the next such line or the end. The part
//! `wanted` is what has to come of the case; where a part `ends` stands too, it is how many lines
//! that has, their sum, and so many lines at the front and at the end. In all parts but `messages`
//! words in `<<` and `>>` stand for others:
//!
//! - `<<3*TEXT>>` for the text three times, in which `@` is the number of the time, from 1, and `%`
//!   the number before it,
//! - `<<byte 255>>` for that byte,
//! - `<<end>>` for the end of the part,
//! - `<<NAME>>` for the text of the file `texts/NAME`.
#![tactic(auto)]

mod case;
mod compared;
mod expansion;
mod fault;
mod lines;
mod tried;
mod words;

pub use case::{Case, str_of};
pub use expansion::{Named, expanded};
pub use fault::CaseFault;
pub use lines::{Answering, answer_lines};
pub use tried::{Answers, try_cases};
pub use words::{Words, number, replaced, whole};
