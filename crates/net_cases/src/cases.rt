//! The servers, and the clients that come to them.

use case_net::{Client, End, FAIR, Takes, Weather};
use std::alloc::{AllocError, Global};

/// What a client sends, how much of it at once (0: a byte, and every second read would wait), how it
/// goes on, how it takes its reply, and when it comes, in milliseconds.
type Row = (&'static [u8], usize, End, Takes, u64);

/// The name of a case, how many places its server has, after how many messages it ends, after how
/// many its desk is shut, its network, and its clients.
pub type Case = (&'static str, usize, u64, u64, Weather, &'static [Row]);

const NEVER: u64 = u64::MAX;

const ALL: Takes = Takes::AtOnce(999);

const TWO: &[Row] = &[
    (b"a\r\n\r\n", 1, End::Stays, ALL, 0),
    (b"5b\r\n\r\nhello, and more", 1, End::Stays, ALL, 0),
];

const BESIDE: &[Row] = &[
    (b"", 1, End::Stays, ALL, 0),
    (b"GET", 1, End::Stays, ALL, 0),
    (b"c\n\n", 9, End::Stays, ALL, 0),
];

const HALVES: &[Row] = &[
    (b"GET / HT", 100, End::Ends, ALL, 0),
    (b"", 100, End::Ends, ALL, 0),
    (b"c\r\n\r\n", 100, End::Ends, ALL, 0),
];

const FAULTS: &[Row] = &[
    (b"GET / HT", 100, End::Breaks, ALL, 0),
    (b"b\r\n\r\n", 100, End::Stays, Takes::Fails(0), 0),
    (b"c\r\n\r\n", 100, End::Stays, ALL, 0),
];

const ONES: &[Row] = &[(b"a\r\n\r\n", 100, End::Stays, Takes::AtOnce(1), 0)];

const NONE: &[Row] = &[
    (b"a\r\n\r\n", 100, End::Stays, Takes::None, 0),
    (b"b\r\n\r\n", 100, End::Ends, ALL, 0),
    (b"c\r\n\r\n", 100, End::Ends, ALL, 0),
];

const NEVERS: &[Row] = &[
    (b"a\r\n\r\n", 100, End::Stays, Takes::Never, 0),
    (b"b\r\n\r\n", 100, End::Ends, ALL, 0),
];

const CROWD: &[Row] = &[
    (b"", 1, End::Stays, ALL, 0),
    (b"G", 1, End::Stays, ALL, 0),
    (b"GE", 1, End::Stays, ALL, 0),
    (b"d\r\n\r\n", 1, End::Stays, ALL, 0),
];

const SLOW: &[Row] = &[
    (
        b"a slow one: a byte a second for longer than it may take",
        0,
        End::Stays,
        ALL,
        0,
    ),
    (b"b\r\n\r\n", 100, End::Stays, ALL, 40_000),
];

const PAUSES: &[Row] = &[(b"a\r\n\r\n", 0, End::Stays, ALL, 0)];

const AFTER: &[Row] = &[
    (b"a\r\n\r\n", 0, End::Stays, ALL, 0),
    (b"b\r\n\r\n", 100, End::Ends, ALL, 41_000),
];

const SHUT: &[Row] = &[
    (b"a\r\n\r\n", 100, End::Ends, ALL, 0),
    (b"b\r\n\r\n", 100, End::Ends, Takes::AtOnce(5), 0),
    (b"c\r\n\r\n", 100, End::Stays, ALL, 1_000),
];

const DEAF: &[Row] = &[
    (b"a\r\n\r\n", 100, End::Stays, Takes::Never, 0),
    (b"b\r\n\r\n", 100, End::Stays, ALL, 500),
];

const MORE: &[Row] = &[
    (b"a\r\n\r\n and more", 100, End::Stays, ALL, 0),
    (b"b\r\n\r\n", 100, End::Stays, ALL, 500),
];

const PAUSING: &[Row] = &[
    (b"a\r\n\r\n", 0, End::Stays, ALL, 0),
    (b"b\r\n\r\n", 100, End::Stays, ALL, 500),
];

const SILENT: &[Row] = &[
    (b"", 100, End::Stays, ALL, 0),
    (b"b\r\n\r\n", 100, End::Stays, ALL, 500),
];

const ENDING: &[Row] = &[
    (b"a\r\n\r\n", 100, End::Ends, ALL, 0),
    (b"b\r\n\r\n", 100, End::Ends, ALL, 0),
];

const STAYING: &[Row] = &[
    (b"a\r\n\r\n", 100, End::Stays, ALL, 0),
    (b"b\r\n\r\n", 100, End::Ends, ALL, 0),
];

/// The clock jumps so far on.
const ON: Weather = Weather {
    begins: 0,
    step: 1_000,
    jump: (3, 40_000),
    fails: (NEVER, 0),
    is_told: true,
    is_echoed: true,
};

/// The clock jumps so far back.
const BACK: Weather = Weather {
    begins: 50_000,
    step: 1_000,
    jump: (3, 0),
    fails: (NEVER, 0),
    is_told: true,
    is_echoed: true,
};

/// From the second accept on, none succeeds.
const NO_MORE: Weather = Weather {
    begins: 0,
    step: 1_000,
    jump: (NEVER, 0),
    fails: (1, NEVER),
    is_told: true,
    is_echoed: true,
};

/// The second and the third accept fail.
const SOME_FAIL: Weather = Weather {
    begins: 0,
    step: 1_000,
    jump: (NEVER, 0),
    fails: (1, 3),
    is_told: true,
    is_echoed: true,
};

pub const CASES: [Case; 19] = [
    (
        "two messages byte by byte, interleaved",
        4,
        2,
        NEVER,
        FAIR,
        TWO,
    ),
    (
        "a count, with idle clients beside",
        4,
        1,
        NEVER,
        FAIR,
        BESIDE,
    ),
    (
        "half a message and the end; nothing and the end",
        4,
        2,
        NEVER,
        FAIR,
        HALVES,
    ),
    (
        "a read that fails, a write that fails, and another",
        4,
        2,
        NEVER,
        FAIR,
        FAULTS,
    ),
    (
        "a reply that is taken byte by byte",
        4,
        1,
        NEVER,
        FAIR,
        ONES,
    ),
    (
        "writes that take nothing, and others",
        2,
        3,
        NEVER,
        FAIR,
        NONE,
    ),
    (
        "writes that would wait, and another",
        2,
        2,
        NEVER,
        FAIR,
        NEVERS,
    ),
    (
        "more idle clients than places, and one more",
        2,
        1,
        NEVER,
        FAIR,
        CROWD,
    ),
    ("a byte a second", 2, 1, NEVER, FAIR, SLOW),
    ("a clock that jumps on", 2, 1, NEVER, ON, AFTER),
    ("a clock that jumps back", 2, 1, NEVER, BACK, PAUSES),
    ("a desk that is shut after two", 4, 9, 2, FAIR, SHUT),
    ("no accept succeeds after one", 4, 9, NEVER, NO_MORE, ENDING),
    (
        "two accepts fail, and then none",
        4,
        2,
        NEVER,
        SOME_FAIL,
        STAYING,
    ),
    ("no place at all", 0, 0, NEVER, FAIR, &[]),
    ("one place, a deaf client in it", 1, 2, NEVER, FAIR, DEAF),
    (
        "one place, a client that lingers in it",
        1,
        2,
        NEVER,
        FAIR,
        MORE,
    ),
    (
        "one place, a client that goes on in it",
        1,
        1,
        NEVER,
        FAIR,
        PAUSING,
    ),
    (
        "one place, a silent client in it",
        1,
        1,
        NEVER,
        FAIR,
        SILENT,
    ),
];

/// The client of a row.
pub fn client_of(alloc: Global, row: &Row) -> Result<Client, AllocError> {
    let (sent, piece, end, takes, comes) = *row;
    Ok(Client {
        sent: Vec::from_slice(alloc, sent)?,
        piece: piece.max(1),
        pauses: piece == 0,
        end,
        takes,
        comes,
    })
}

/// The clients of rows, the last first.
pub fn clients_of(alloc: Global, rows: &[Row]) -> Result<Vec<Client>, AllocError> {
    let mut clients = Vec::new(alloc);
    for row in rows.iter().rev() {
        clients.push(client_of(alloc, row)?)?;
    }
    Ok(clients)
}
