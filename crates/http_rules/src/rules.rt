//! What was read is taken by HTTP's rules.
ghost use Rattle.std.specs.Prelude.{◌≡◌, ◌≢◌, [], Err};
ghost use Rattle.httparse.specs.Grammar.{RequestHead};
ghost use Rattle.message_core.specs.Head.{StartsWith};
ghost use Rattle.message_core.specs.declared.fault.WireFault.{WireFault};
ghost use Rattle.http_rules.specs.Rules as form;

use crate::host::has_host;
use crate::target::in_origin_form;
use message_core::{Request, WireFault};
use std::alloc::Global;

/// What was read, by the rules of its head. `BadHead` where it is of HTTP/1.1 and has no line
/// `Host`, where it has two, or one with a byte that no host and no port has. A target that is a
/// whole address of `http` or `https` becomes what stands behind its host. All else stays.
/// `NoMemory` may stand in place of any message.
pub fn by_rules(alloc: Global, read: Result<Request, WireFault>) -> Result<Request, WireFault>
    ensures { result ≢ Err WireFault.NoMemory → form.IsByRules read result }
{
    match read {
        Ok(request) => ruled(alloc, request),
        Err(fault) => Err(fault),
    }
}

/// The message by the rules of its head.
fn ruled(alloc: Global, request: Request) -> Result<Request, WireFault>
    ensures { (h : RequestHead) → StartsWith request.head h [] → result ≢ Err WireFault.NoMemory
        → result ≡ form.ruled h request }
{
    match has_host(alloc, request.head.as_slice()) {
        Ok(true) => match in_origin_form(alloc, request) {
            Ok(request) => Ok(request),
            Err(_) => Err(WireFault::NoMemory),
        },
        Ok(false) => Err(WireFault::BadHead),
        Err(_) => Err(WireFault::NoMemory),
    }
}
