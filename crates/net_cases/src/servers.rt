//! Cases of servers over connections in memory: what each client gets, and how each server ends.

use crate::cases::{CASES, Case, clients_of};
use crate::desk::Echo;
use crate::failure::Failure;
use crate::lots::Lots;
use case_net::{Client, End, FAIR, FakeHost, Takes, Told, Weather, name_of};
use case_text::str_of;
use server_core::serve;
use std::alloc::Global;

/// How many clients come by lot.
const BY_LOT: usize = 1_000;

/// Runs a server for these clients, and tells how it ended.
fn run(
    rt: &Told,
    places: usize,
    most: u64,
    shut_at: u64,
    weather: Weather,
    clients: Vec<Client>,
) -> Result<(u64, u64), Failure> {
    let mut host = FakeHost::new(rt, rt.alloc(), weather, clients);
    let mut desk = Echo::new(shut_at);
    let ending = name_of(serve(rt.alloc(), &mut host, &mut desk, places, most));
    let count = desk.count();
    let seconds = host.seconds();
    let wrong = host.wrong();
    if weather.is_told {
        println!(rt; "{ending}: {count} answered, {wrong} wrong, after {seconds} s")?;
    }
    Ok((count, host.whole()))
}

fn run_case_of(rt: &Told, case: &Case) -> Result<(), Failure> {
    let (_, places, most, shut_at, weather, rows) = *case;
    run(
        rt,
        places,
        most,
        shut_at,
        weather,
        clients_of(rt.alloc(), rows)?,
    )?;
    Ok(())
}

/// One client's connection is reset after each of its bytes in turn, beside another client.
fn run_resets(rt: &Told) -> Result<(), Failure> {
    let sent = b"1a\r\n\r\nb".as_slice();
    for count in 0..=sent.len() {
        let reset = one(rt, &sent[..count], End::Breaks, Takes::AtOnce(999))?;
        let clients = beside_a_good_one(rt, reset)?;
        run(rt, 4, 2, u64::MAX, FAIR, clients)?;
    }
    Ok(())
}

/// The writes to one client fail after each byte of its reply in turn, beside another client.
fn run_failing_writes(rt: &Told) -> Result<(), Failure> {
    for count in 0..=7 {
        let failing = one(rt, b"a\r\n\r\n", End::Stays, Takes::Fails(count))?;
        let clients = beside_a_good_one(rt, failing)?;
        run(rt, 4, 2, u64::MAX, FAIR, clients)?;
    }
    Ok(())
}

/// The client, after which one comes whose message is whole, and which takes its reply.
fn beside_a_good_one(rt: &Told, client: Client) -> Result<Vec<Client>, Failure> {
    let mut clients = Vec::new(rt.alloc());
    clients.push(one(rt, b"good\n\n", End::Ends, Takes::AtOnce(999))?)?;
    clients.push(client)?;
    Ok(clients)
}

fn one(rt: &Told, sent: &[u8], end: End, takes: Takes) -> Result<Client, Failure> {
    Ok(Client {
        sent: Vec::from_slice(rt.alloc(), sent)?,
        piece: 100,
        pauses: false,
        end,
        takes,
        comes: 0,
    })
}

/// A thousand clients by lot: as many are answered as sent a message that was whole or ended, and
/// each of those that takes its reply has it whole.
fn run_lots(rt: &Told) -> Result<(), Failure> {
    let mut lots = Lots::new(61);
    let mut clients = Vec::new(rt.alloc());
    let mut answered = 0u64;
    let mut whole = 0u64;
    for number in (0..BY_LOT).rev() {
        let client = lots.client(rt.alloc(), number)?;
        if client.message_len().is_some() {
            answered = answered.saturating_add(1);
            if let Takes::AtOnce(_) = client.takes {
                whole = whole.saturating_add(1);
            }
        }
        clients.push(client)?;
    }
    let quiet = Weather {
        step: 1,
        is_told: false,
        ..FAIR
    };
    let (count, had) = run(rt, 256, answered, u64::MAX, quiet, clients)?;
    let some = answered > 500 && answered < 1_000 && whole < answered;
    println!(rt; "some answered and some not: {some}")?;
    let as_many = count == answered;
    println!(rt; "as many as were to be: {as_many}")?;
    let each = had == whole;
    println!(rt; "each that takes its reply has it whole: {each}")?;
    Ok(())
}

/// Runs the servers that a line names: one of `cases.rt`, or others.
pub(crate) fn run_case(alloc: Global, out: &mut String, line: &str) -> Result<(), Failure> {
    let told = Told::new(alloc);
    let ran = run_named(&told, line.trim_end());
    let text = told.into_text();
    out.push_str(str_of(text.as_slice()))?;
    ran
}

fn run_named(rt: &Told, name: &str) -> Result<(), Failure> {
    match name {
        "a reset after each byte" => run_resets(rt),
        "writes that fail after each byte" => run_failing_writes(rt),
        "1000 clients by lot" => run_lots(rt),
        _ => run_one(rt, name),
    }
}

fn run_one(rt: &Told, name: &str) -> Result<(), Failure> {
    for case in &CASES {
        if case.0 == name {
            return run_case_of(rt, case);
        }
    }
    Err(Failure::BadLine)
}
