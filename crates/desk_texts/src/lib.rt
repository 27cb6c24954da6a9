//! The texts of answers and refusals, as they are printed: `answer_text`, `refusal_text` and
//! `outcome_text`. Lists, reports and histories are in columns.
//!
//! `put_short` puts the text of `Done`, `Created` or a refusal after other bytes, without memory,
//! where there is room for 64. What a refusal names as a right must be a right's name, as it is in
//! all that a desk refuses. `text_in_room` is any text, short ones in room had before. A command
//! with another text changes nothing.
#![tactic(auto)]

pub mod room;
pub mod short;
pub mod texts;

pub use room::text_in_room;
pub use short::{SHORT_TEXT, is_short, put_short};
pub use texts::history::history_text;
pub use texts::listed::{list_text, put_line, put_list_header};
pub use texts::overdue::{overdue_text, put_late_line, put_overdue_header};
pub use texts::queues::queues_text;
pub use texts::shown::show_text;
pub use texts::workload::workload_text;
pub use texts::{answer_text, outcome_text, refusal_text};
