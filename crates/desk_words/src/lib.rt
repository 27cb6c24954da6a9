//! What a line of text asks of the desk: its words, and the command that words spell.
//!
//! - `words_of` gives the words of a line exactly where its quotes are well formed.
//! - `command_of_words` gives a command exactly where `clap`'s own function of the command line with
//!   all rows does. Where the first word names a row, its subcommand alone is made:
//!   `proofs/Enough.antt` shows of any list of rows that no other matters.
#![tactic(auto)]

pub mod fault;
mod given;
mod line;
pub mod words;

pub use desk_forms::number_of_word;
pub use fault::WordsFault;
pub use given::command_of_words;
pub use words::words_of;
