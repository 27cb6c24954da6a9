//! Texts of rows that are gathered, and go out by few writes.
ghost use Rattle.std.specs.Prelude.{◌≡◌, [], false, IfOk, Ok};
ghost use Rattle.stream_core.specs.Seen.{has_write_failed};
ghost use Rattle.stream_core.specs.Written.{Prints};
ghost use Rattle.desk_reports.specs.Gathered.{GathersText};
ghost use Rattle.desk_reports.specs.Streams.{IsCutBy, LeavesWriter};

use crate::fault::StreamFault;
use std::io::Write;
use stream_core::CountedWriter;

/// From so many bytes on, what is gathered goes out.
const FULL: usize = 8_192;

/// Gathers a text, and writes what is gathered where that is much. `Write` where a write fails or
/// takes no byte, `Unavailable` where memory is refused: then the text is left out.
pub(crate) fn gather<W: Write>(
    text: &str,
    gathered: &mut Vec<u8>,
    output: &mut CountedWriter<'_, W>,
) -> Result<(), StreamFault>
    requires ready { has_write_failed output.old ≡ false }
    ensures output { LeavesWriter output.old output.new result }
    ensures gathered { GathersText text.now W.contents output.old gathered.old.items
        output.new gathered.new.items result }
{
    gathered.extend_from_slice(text.as_bytes())?;
    if gathered.len() < FULL {
        return Ok(());
    }
    put_gathered(gathered, output)
}

/// Writes what is gathered. `Write` where a write fails or takes no byte.
fn put_gathered<W: Write>(
    gathered: &mut Vec<u8>,
    output: &mut CountedWriter<'_, W>,
) -> Result<(), StreamFault>
    ensures output { LeavesWriter output.old output.new result }
    ensures printed { Prints W.contents output.old output.new gathered.old.items }
    ensures emptied { gathered.new.items ≡ [] }
{
    output.put(gathered.as_slice());
    gathered.clear();
    if output.failed() {
        Err(StreamFault::Write)
    } else {
        Ok(())
    }
}

/// Writes what is gathered when a list has ended, whole or cut short, and answers how it ended:
/// `Write` where that write fails or takes no byte.
pub(crate) fn finish<W: Write>(
    ended: Result<(), StreamFault>,
    gathered: &mut Vec<u8>,
    output: &mut CountedWriter<'_, W>,
) -> Result<(), StreamFault>
    requires { IsCutBy ended (has_write_failed output.old) }
    ensures output { LeavesWriter output.old output.new result }
    ensures printed { Prints W.contents output.old output.new gathered.old.items }
    ensures whole { IfOk result (λ done. ended ≡ Ok done) }
{
    put_gathered(gathered, output)?;
    ended
}
