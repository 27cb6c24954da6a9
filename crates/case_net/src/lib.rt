//! A network, a clock and clients in memory, for programs of cases: what each client sends and when,
//! how it takes its reply, which accepts fail, and how the clock jumps.
#![tactic(auto)]

mod client;
mod echo;
mod ending;
mod host;
mod stream;
mod told;

pub use client::{Client, End, Takes};
pub use echo::echo_of;
pub use ending::name_of;
pub use host::{FAIR, FakeHost, MINUTE, Weather};
pub use stream::FakeStream;
pub use told::Told;
