//! A line that was taken, and its answer.
ghost use Rattle.std.specs.Prelude.{IfOk, OnErr};
ghost use Rattle.service_core.specs.Leaves.{LeavesDesk};
ghost use Rattle.service_core.specs.Seen.{settings_of, tables_of};
ghost use Rattle.desk_program.specs.FaultLines.{unavailable_text};
ghost use Rattle.desk_program.specs.Script.{LineLeads};
ghost use Rattle.desk_program.specs.declared.line.Line.{Line};
ghost use Rattle.load_core.specs.Load.{said_by};

use desk_program::answer_line;
use service_core::Desk;
use std::alloc::{AllocError, Global};
use std::str;
use store_core::Backend;

/// What is answered to bytes that say nothing.
const BAD_WORDS: &[u8] = b"bad words\n";

/// The answer to a line's text, after its command is done: `bad words` to one that isn't UTF-8, else
/// that of a script's line. `AllocError` stands for the text `refused 16 Unavailable`, and the desk
/// stays as it was.
#[tactic(auto, using(service_core::proofs::LeftLemmas::left_same))]
pub(crate) fn answer_bytes<S: Backend>(
    alloc: Global,
    desk: &mut Desk<S>,
    bytes: &[u8],
) -> Result<Vec<u8>, AllocError>
    ensures ok { IfOk result (λ text. LineLeads (settings_of S.Store desk.old)
        (said_by bytes.now) text.items
        (tables_of S.Store desk.old) (tables_of S.Store desk.new)) }
    ensures err { OnErr result (LineLeads (settings_of S.Store desk.old)
        (said_by bytes.now) unavailable_text
        (tables_of S.Store desk.old) (tables_of S.Store desk.new)) }
    ensures left { LeavesDesk S.Store desk.old desk.new }
{
    match str::from_utf8(bytes) {
        Ok(text) => answer_line(alloc, desk, text),
        Err(_) => Vec::from_slice(alloc, BAD_WORDS),
    }
}
