//! Lines of commands loaded into a desk: each line off a stream is answered as a script's, before
//! the next one is read.
//!
//! `load` tells the run of the lines, as its contract says: each line is the first of what was left
//! of the stream, is answered over the tables that the one before left, and has its answer written
//! with its number. The run ends by the end of the stream, a failed read, a failed write, or the
//! first refusal, where that is asked.
//!
//! What a step did is not undone where its answer can't be written: the step is made first.
#![tactic(auto)]

mod answer;
mod beyond;
mod line;
mod run;

pub use beyond::{is_beyond, put_beyond};
pub use run::{Ending, Loaded, Plan, Progress, load};
