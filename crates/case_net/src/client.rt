//! Clients: what each sends, and how it takes what it is answered.

/// What a client does once its bytes are sent.
#[derive(Clone, Copy)]
pub enum End {
    /// It waits.
    Stays,
    /// It sends no more.
    Ends,
    /// Its connection is reset.
    Breaks,
}

/// How a client takes the bytes of a reply.
#[derive(Clone, Copy)]
pub enum Takes {
    /// So many at once.
    AtOnce(usize),
    /// None: a write answers 0.
    None,
    /// None: a write would wait.
    Never,
    /// So many, and then its connection is reset.
    Fails(usize),
}

/// A client.
#[derive(Drop)]
pub struct Client {
    /// What it sends.
    pub sent: Vec<u8>,
    /// How many bytes of that at once.
    pub piece: usize,
    /// Whether each read but every second would wait.
    pub pauses: bool,
    /// How it goes on.
    pub end: End,
    /// How it takes its reply.
    pub takes: Takes,
    /// When it comes, in milliseconds.
    pub comes: u64,
}

impl Client {
    /// How often it goes on after a pause.
    pub fn beats(&self) -> usize {
        if self.pauses {
            self.sent.len().saturating_add(2)
        } else {
            0
        }
    }

    /// How many bytes its message has, if it gets to be one that is answered: up to the end of the
    /// body that the head states, or all where it ends before. None that is reset or stays before.
    pub fn message_len(&self) -> Option<usize> {
        let head = head_len(self.sent.as_slice());
        let all = self.sent.len();
        if head > 0 {
            let whole = head.saturating_add(body_len(self.sent.as_slice()));
            if whole <= all {
                return Some(whole);
            }
        }
        match self.end {
            End::Ends if all > 0 => Some(all),
            End::Ends | End::Stays | End::Breaks => None,
        }
    }
}

/// How many bytes there are up to the first empty line after one that isn't, with it; 0 where there
/// is no such line.
fn head_len(sent: &[u8]) -> usize {
    let mut length = 0usize;
    let mut begun = false;
    let mut last = 0u8;
    let mut before = 0u8;
    for byte in sent {
        length = length.saturating_add(1);
        let ends = last == b'\n' || last == b'\r' && before == b'\n';
        if begun && *byte == b'\n' && ends {
            return length;
        }
        if begun || *byte != b'\n' && *byte != b'\r' {
            begun = true;
            before = last;
            last = *byte;
        }
    }
    0
}

/// The digit with which it begins; 0 for any other byte.
fn body_len(sent: &[u8]) -> usize {
    match sent.first() {
        Some(byte) if b'0' <= *byte && *byte <= b'9' => usize::from(*byte - b'0'),
        _ => 0,
    }
}
