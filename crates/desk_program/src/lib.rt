//! The desk's program: a script over a desk in memory, and one command and a server over a desk
//! that is opened.
//!
//! Each call reads and writes by a reader and a writer that count, so that what a contract says of
//! reads, writes and failures is said of the streams. `run_script` alone, which is given streams that
//! don't, is `run_script_counted` with new counters.
//!
//! `run_script_counted` writes a run of the commands from the empty desk, by the settings before the
//! first line `%%`; or else the least fault of the settings, or that of the input, or that there was
//! no memory for a desk; or `input: read` in place of all.
//!
//! `answer_line` answers one line of a script, over the tables of any desk.
//!
//! `run_one` runs one command on the tables of a store, and gives the store back. The first row
//! that holds says what is printed. `refused 16 Unavailable` may stand in place of all, with the
//! tables as they were.
//!
//! | Where | Printed | Status | The tables |
//! |---|---|---|---|
//! | the words spell no command | `bad words` | 2 | stay |
//! | the settings have a fault | that fault | 3 | stay |
//! | the tables can't be made, or the settings not be attached | that fault | 4 | hold what they held; those of version 1 may stand for their desk as version 2 |
//! | a list is cut short | a part from its front, then `refused 16 Unavailable` | 1 | stand for the desk as it was |
//! | else | the text of one step | 0 or 1 | stand for the desk after it, whose names the settings know |
//!
//! Where a write failed, a part from the front was written, and the status is 4. The commands whose
//! list may be cut short are `ls` and `overdue`.
//!
//! `open_desk` makes or brings on the tables, and attaches the settings. Where it gives no desk it
//! prints the fault, of the settings before the store's, and that before one of attaching. A body that
//! always gave up would meet its contract, since any call may be out of memory. `open_desk_whole`
//! gives the store back then.
//!
//! `serve_on` answers connections one after the other, by a listener that counts: as many
//! connections were accepted as the desk was led by, each a message step or, where a
//! read failed, no step; and the status is 0 exactly where all were accepted. That each is answered
//! at the minute that the clock gave after its accept is seen by reading `listening.rt`, which alone
//! accepts, and by cases.
#![tactic(auto)]

mod fault;
mod fault_lines;
mod input;
mod line;
mod listening;
mod one;
mod opening;
mod options;
mod run;
mod script;
mod serving;
mod status;

pub use fault::InputFault;
pub use line::{Line, answer_line};
pub use listening::{Connection, CountedListener};
pub use one::run_one;
pub use opening::{
    open_desk, open_desk_whole, take_settings, tell_bad_words, tell_input_fault, tell_store_fault,
};
pub use options::{OneCommand, Serving, one_command_of, serving_of};
pub use script::{Memory, run_script, run_script_counted};
pub use serving::serve_on;
pub use status::Status;
