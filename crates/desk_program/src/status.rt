//! The exit statuses.
ghost use Rattle.std.specs.Prelude.{◌≡◌, if◌then◌else◌};
ghost use Rattle.stream_core.specs.Seen.{has_write_failed};
ghost use Rattle.desk_program.specs.Status.{code_of};

use std::io::Write;
use stream_core::CountedWriter;

/// How the program ended.
#[derive(Clone, Copy, Debug, PartialEq, Eq)]
pub enum Status {
    /// What was asked is done; a script's refused lines are no fault.
    Done,
    /// One command was refused.
    Refused,
    /// The words spell nothing that is understood.
    BadWords,
    /// The settings have a fault.
    BadSettings,
    /// The input, the tables or the network has a fault, or a write failed.
    Failed,
}

impl Status {
    /// The exit status once the output was written: that of a failed write, if one failed.
    pub(crate) fn after<W: Write>(self, output: &CountedWriter<'_, W>) -> u8
        ensures { result ≡ (if has_write_failed output.now then 4 else code_of self) }
    {
        if output.failed() {
            u8::from(Status::Failed)
        } else {
            u8::from(self)
        }
    }
}

impl From<Status> for u8 {
    ghost use Rattle.std.specs.Prelude.{◌≡◌};
    ghost use Rattle.desk_program.specs.Status.{code_of};

    ghost from_gives = { λ status code. code ≡ code_of status };

    fn from(status: Status) -> u8 {
        match status {
            Status::Done => 0,
            Status::Refused => 1,
            Status::BadWords => 2,
            Status::BadSettings => 3,
            Status::Failed => 4,
        }
    }
}
