//! The body of a message is taken from a reader, and nothing after it.
ghost use Rattle.std.specs.Prelude.{◌≡◌, ◌≢◌, ◌≤◌, ◌<◌, ◌+◌, ◌-◌, ◌||◌, ◌++◌, List, ℕ, IfOk, IfErr};
ghost use Rattle.std.specs.Prelude.{length, Err};
ghost use Rattle.std.specs.Io.KnownBytes.{Consumes, IsAtEnd};
ghost use Rattle.stream_core.specs.Seen.{HaveOneReader, has_read_failed, left_in, reads_of};
ghost use Rattle.stream_core.specs.Streams.{ConsumesAtMost};
ghost use Rattle.message_core.specs.Body.{EndsWithin};
ghost use Rattle.message_core.specs.Fault.{tells_failed_read};

use crate::fault::WireFault;
use std::alloc::Global;
use std::io::Read;
use stream_core::CountedReader;

/// How many bytes are asked for at once.
const CHUNK: usize = 4_096;

/// So many bytes of the reader, and none after them. `Truncated` where it ends before.
pub(crate) fn take_body<R: Read>(
    alloc: Global,
    reader: &mut CountedReader<'_, R>,
    wanted: u32,
) -> Result<Vec<u8>, WireFault>
    ensures one { HaveOneReader reader.new reader.old }
    ensures body { IfOk result (λ body. (length body.items ≡ wanted)
        × Consumes (left_in R.remaining reader.old) (left_in R.remaining reader.new) body.items) }
    ensures short { result ≡ Err WireFault.Truncated
        → EndsWithin wanted (left_in R.remaining reader.old) (left_in R.remaining reader.new) }
    ensures kinds { IfErr result (λ fault. fault ≢ WireFault.Truncated
        → fault ≢ WireFault.Read → fault ≡ WireFault.NoMemory) }
    ensures taken { ConsumesAtMost (left_in R.remaining reader.old)
        (left_in R.remaining reader.new) wanted }
    ensures failed { has_read_failed reader.new
        ≡ (tells_failed_read result || has_read_failed reader.old) }
    ensures reads { reads_of reader.new ≤ reads_of reader.old + wanted }
{
    let mut body = Vec::new(alloc);
    let mut chunk = [0u8; CHUNK];
    while body.len() < wanted as usize {
        if take_some(reader, &mut chunk, &mut body, wanted as usize)? == 0 {
            return Err(WireFault::Truncated);
        }
    }
    Ok(body)
}

/// One read into the chunk, whose bytes go to the end of the body: how many they are.
fn take_some<R: Read>(
    reader: &mut CountedReader<'_, R>,
    chunk: &mut [u8; CHUNK],
    body: &mut Vec<u8>,
    wanted: usize,
) -> Result<usize, WireFault>
    requires { length body.old.items < wanted }
    ensures one { HaveOneReader reader.new reader.old }
    ensures some { IfOk result (λ n. (length body.new.items ≡ length body.old.items + n)
        × ((bytes : List ℕ) × (body.new.items ≡ body.old.items ++ bytes)
        × Consumes (left_in R.remaining reader.old) (left_in R.remaining reader.new) bytes)
        × (n ≡ 0 → IsAtEnd (left_in R.remaining reader.new))) }
    ensures within { IfOk result (λ _. length body.new.items ≤ wanted) }
    ensures kinds { IfErr result (λ fault. fault ≢ WireFault.Read → fault ≡ WireFault.NoMemory) }
    ensures taken { ConsumesAtMost (left_in R.remaining reader.old)
        (left_in R.remaining reader.new) (wanted - length body.old.items) }
    ensures failed { has_read_failed reader.new
        ≡ (tells_failed_read result || has_read_failed reader.old) }
    ensures reads { reads_of reader.new ≤ reads_of reader.old + 1 }
{
    let room = CHUNK.min(wanted - body.len());
    match reader.read(&mut chunk[..room]) {
        Ok(count) => match body.extend_from_slice(&chunk[..count]) {
            Ok(()) => Ok(count),
            Err(_) => Err(WireFault::NoMemory),
        },
        Err(_) => Err(WireFault::Read),
    }
}
