//! A load that was to begin beyond the end of its lines.
ghost use Rattle.std.specs.Prelude.{◌≡◌, ◌++◌, codes, decimal};
ghost use Rattle.stream_core.specs.Seen.{HaveOneWriter};
ghost use Rattle.stream_core.specs.Written.{Prints};
ghost use Rattle.load_core.specs.Load.{beyond_text, is_beyond, is_end};

use crate::run::{Ending, Loaded, Plan};
use itoa::Buffer;
use std::io::Write;
use stream_core::CountedWriter;

/// Whether lines were to be passed over, and the stream ended before one followed them.
pub fn is_beyond(plan: Plan, loaded: &Loaded) -> bool
    ensures { result ≡ is_beyond plan loaded.now }
{
    plan.passed != 0 && loaded.answered == 0 && is_end(loaded.ending)
}

fn is_end(ending: Ending) -> bool
    ensures { result ≡ is_end ending }
{
    match ending {
        Ending::Input => true,
        Ending::Refused | Ending::Read | Ending::Write => false,
    }
}

/// Prints that no line follows those that were to be passed over.
pub fn put_beyond<W: Write>(plan: Plan, output: &mut CountedWriter<'_, W>)
    ensures same_writer { HaveOneWriter output.new output.old }
    ensures printed { Prints W.contents output.old output.new (beyond_text plan.passed) }
{
    let mut buffer = Buffer::new();
    output.put(b"no line after ");
    output.put(buffer.format(plan.passed).as_bytes());
    output.put(b"\n");
}
