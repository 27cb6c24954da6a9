//! A network and a clock in memory.

use crate::client::Client;
use crate::echo::echo_of;
use crate::stream::FakeStream;
use server_core::{Host, NetFault, Readiness};
use std::alloc::Global;
use std::io::{Read, Write};
use std::{io, str};

/// 2026-03-06 17:30 UTC, the minute of each message.
pub const MINUTE: u32 = 29_546_970;

/// How long the network lasts, in milliseconds.
const LASTS: u64 = 100_000;

/// How a network and its clock are.
#[derive(Clone, Copy)]
pub struct Weather {
    /// The moment at which the clock begins.
    pub begins: u64,
    /// How long a client that pauses does so, in milliseconds.
    pub step: u64,
    /// At which wait the clock jumps, and to which moment.
    pub jump: (u64, u64),
    /// From which accept on none succeeds, and until which.
    pub fails: (u64, u64),
    /// Whether it is printed what each client was answered.
    pub is_told: bool,
    /// Whether the desk answers each message with its number and itself.
    pub is_echoed: bool,
}

/// Nothing fails, and a pause takes a second.
pub const FAIR: Weather = Weather {
    begins: 0,
    step: 1_000,
    jump: (u64::MAX, 0),
    fails: (u64::MAX, 0),
    is_told: true,
    is_echoed: true,
};

/// Clients that come one after the other. A wait takes as long as it may, unless something happens: a
/// client comes, which is told once, or one that pauses goes on, whose stream alone is marked.
#[derive(Drop)]
pub struct FakeHost<'r, R> {
    rt: &'r R,
    alloc: Global,
    weather: Weather,
    /// Those that haven't come; the next is the last.
    clients: Vec<Client>,
    now: u64,
    waits: u64,
    accepts: u64,
    came: usize,
    told: u64,
    /// How many were answered whole, and how many answers or replies were wrong.
    whole: u64,
    wrong: u64,
    failed: u64,
    wait_failed: bool,
    /// How many clients were told to have come and aren't accepted.
    waiting: usize,
    /// How often the client at each place goes on yet, and when those that pause do.
    beats: Vec<usize>,
    beats_at: u64,
}

impl<'r, R: Print> FakeHost<'r, R> {
    /// The first client to come is the last of these.
    pub fn new(
        rt: &'r R,
        alloc: Global,
        weather: Weather,
        clients: Vec<Client>,
    ) -> FakeHost<'r, R> {
        FakeHost {
            rt,
            alloc,
            weather,
            clients,
            now: weather.begins,
            waits: 0,
            accepts: 0,
            came: 0,
            told: 0,
            whole: 0,
            wrong: 0,
            failed: 0,
            wait_failed: false,
            waiting: 0,
            beats: Vec::new(alloc),
            beats_at: u64::MAX,
        }
    }

    pub fn seconds(&self) -> u64 {
        self.now / 1_000
    }

    /// How many clients had their whole reply.
    pub fn whole(&self) -> u64 {
        self.whole
    }

    /// How many replies weren't those of their messages.
    pub fn wrong(&self) -> u64 {
        self.wrong
    }

    /// Whether a reply has as many bytes as the number of its message and the message.
    fn is_right(&self, message: &[u8], bytes: u64) -> bool {
        match &echo_of(self.alloc, self.told, message) {
            Ok(wanted) => wanted.len() as u64 == bytes,
            Err(_) => false,
        }
    }

    fn is_next_here(&self) -> bool {
        match self.clients.last() {
            Some(client) => client.comes <= self.now,
            None => false,
        }
    }

    /// When the next client comes that wasn't told.
    fn next_comes(&self) -> u64 {
        let untold = self.clients.len().saturating_sub(self.waiting);
        match self.clients.get(untold.wrapping_sub(1)) {
            Some(client) => client.comes,
            None => u64::MAX,
        }
    }

    /// When a wait ends: after so many milliseconds, unless something happens.
    fn next_moment(&self, milliseconds: u64) -> u64 {
        let until = self.now.saturating_add(milliseconds);
        until
            .min(self.next_comes().max(self.now))
            .min(self.beats_at.max(self.now))
    }

    /// Whether a client has come that wasn't told. It is told now.
    fn tell(&mut self) -> bool {
        let mut comes = false;
        for _client in 0..self.clients.len() {
            if self.next_comes() <= self.now {
                self.waiting = self.waiting.saturating_add(1);
                comes = true;
            }
        }
        comes
    }

    /// The client at this place pauses so often.
    fn begin(&mut self, place: usize, beats: usize) {
        for _place in 0..place.saturating_add(1) {
            if self.beats.len() <= place {
                let _pushed = self.beats.push(0);
            }
        }
        if let Some(left) = self.beats.get_mut(place) {
            *left = beats;
        }
        if beats > 0 {
            self.beats_at = self
                .beats_at
                .min(self.now.saturating_add(self.weather.step));
        }
    }

    /// Clients that pause go on, if it is time for it.
    fn go_on(&mut self, marks: &mut [Readiness]) {
        if self.now < self.beats_at {
            return;
        }
        let mut more = false;
        for (left, mark) in self.beats.iter_mut().zip(marks.iter_mut()) {
            if *left > 0 {
                *left = left.saturating_sub(1);
                mark.readable = true;
                more = true;
            }
        }
        self.beats_at = if more {
            self.now.saturating_add(self.weather.step)
        } else {
            u64::MAX
        };
    }

    /// The next client, if one has come: its stream, at this place.
    fn next_client(&mut self, place: usize) -> Option<FakeStream> {
        if !self.is_next_here() {
            return None;
        }
        let client = self.clients.pop()?;
        self.came = self.came.saturating_add(1);
        self.waiting = self.waiting.saturating_sub(1);
        self.begin(place, client.beats());
        Some(FakeStream::new(self.alloc, self.came, client))
    }

    /// So many milliseconds pass, unless something happens. Whether a client has come since.
    fn pass(&mut self, milliseconds: u64, marks: &mut [Readiness]) -> bool {
        self.now = self.next_moment(milliseconds);
        let (jumps, moment) = self.weather.jump;
        if self.waits == jumps {
            self.now = moment;
            self.beats_at = moment;
        }
        self.waits = self.waits.saturating_add(1);
        self.go_on(marks);
        self.tell()
    }

    fn fails_now(&self) -> bool {
        let (from, until) = self.weather.fails;
        from <= self.accepts && self.accepts < until
    }
}

impl<'r, R: Print> Host for FakeHost<'r, R> {
    type Stream = FakeStream;

    ghost use Rattle.std.specs.Prelude.{None};

    ghost told = { λ host. record {
      failed = host.failed;
      wait_failed = host.wait_failed;
      moments = None;
      minutes = None;
      lines = None;
    } };

    fn accept(&mut self, place: usize) -> Result<Option<FakeStream>, NetFault> {
        let fails = self.fails_now();
        let wait_failed = self.wait_failed;
        self.accepts = self.accepts.saturating_add(1);
        if fails {
            self.failed = self.failed.saturating_add(1);
            return Err(NetFault);
        }
        let taken = self.next_client(place);
        self.failed = 0;
        self.wait_failed = wait_failed;
        Ok(taken)
    }

    fn read(
        &mut self,
        _place: usize,
        stream: &mut FakeStream,
        buffer: &mut [u8],
    ) -> io::Result<usize> {
        stream.read(buffer)
    }

    fn write(&mut self, _place: usize, stream: &mut FakeStream, bytes: &[u8]) -> io::Result<usize> {
        stream.write(bytes)
    }

    fn shut(&mut self, stream: &FakeStream) {
        if !self.weather.is_echoed || stream.is_whole() {
            self.whole = self.whole.saturating_add(1);
        } else {
            self.wrong = self.wrong.saturating_add(1);
        }
        if self.weather.is_told {
            let name = stream.name;
            let text = str::from_utf8(stream.taken()).unwrap_or("?");
            let _told = println!(self.rt; "client {name}: {text:?}");
        }
    }

    fn wait_moment(&mut self) -> u64 {
        self.now
    }

    fn wait(&mut self, milliseconds: u64, marks: &mut [Readiness]) -> Result<bool, NetFault> {
        if self.now >= LASTS {
            self.wait_failed = true;
            return Err(NetFault);
        }
        let (failed, wait_failed) = (self.failed, self.wait_failed);
        let comes = self.pass(milliseconds, marks);
        self.failed = failed;
        self.wait_failed = wait_failed;
        Ok(comes)
    }

    fn micros(&mut self) -> u64 {
        self.now.saturating_mul(1_000)
    }

    fn moment(&mut self) -> u64 {
        self.now
    }

    fn minute(&mut self) -> u32 {
        MINUTE
    }

    fn log(&mut self, _minute: u32, note: &[u8], bytes: u64, _micros: u64) {
        self.told = self.told.saturating_add(1);
        if self.weather.is_echoed && !self.is_right(note, bytes) {
            self.wrong = self.wrong.saturating_add(1);
        }
    }
}
