//! The names of the rights that commands ask for.

ghost use Rattle.std.specs.Prelude.{◌≡◌};
ghost use Rattle.std.specs.List.{list_any};
ghost use Rattle.std.specs.Str.{bytes_eq};
ghost use Rattle.rights_core.specs.People.{is_among};
ghost use Rattle.rights_core.specs.Right.{standard_rights};

pub const SEE_QUEUE: &str = "SeeQueue";

pub const CREATE_TICKET: &str = "CreateTicket";

pub const SHOW_TICKET: &str = "ShowTicket";

pub const SHOW_TICKET_COMMENTS: &str = "ShowTicketComments";

pub const MODIFY_TICKET: &str = "ModifyTicket";

pub const REPLY_TO_TICKET: &str = "ReplyToTicket";

pub const COMMENT_ON_TICKET: &str = "CommentOnTicket";

pub const OWN_TICKET: &str = "OwnTicket";

pub const TAKE_TICKET: &str = "TakeTicket";

pub const STEAL_TICKET: &str = "StealTicket";

pub const REASSIGN_TICKET: &str = "ReassignTicket";

pub const DELETE_TICKET: &str = "DeleteTicket";

pub const WATCH: &str = "Watch";

pub const WATCH_AS_ADMIN_CC: &str = "WatchAsAdminCc";

pub const ADMIN_QUEUE: &str = "AdminQueue";

/// Stands for every right on the queues that its grant covers.
pub const SUPER_USER: &str = "SuperUser";

/// All of them.
pub const STANDARD: [&str; 16] = [
    SEE_QUEUE,
    CREATE_TICKET,
    SHOW_TICKET,
    SHOW_TICKET_COMMENTS,
    MODIFY_TICKET,
    REPLY_TO_TICKET,
    COMMENT_ON_TICKET,
    OWN_TICKET,
    TAKE_TICKET,
    STEAL_TICKET,
    REASSIGN_TICKET,
    DELETE_TICKET,
    WATCH,
    WATCH_AS_ADMIN_CC,
    ADMIN_QUEUE,
    SUPER_USER,
];

/// Whether the text is one of them.
pub fn is_standard(text: &str) -> bool
    ensures { result ≡ is_among standard_rights text.now }
{
    has_name(&STANDARD, text)
}

fn has_name(rights: &[&str], text: &str) -> bool
    ensures { result ≡ list_any (λ r. bytes_eq r.now text.now) rights.now }
{
    rights.iter().any(|right| *right == text)
}
