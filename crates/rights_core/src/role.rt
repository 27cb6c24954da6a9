//! Roles of a person on a request.

ghost use Rattle.std.specs.Prelude.{◌≡◌};
ghost use Rattle.rights_core.specs.People as words;

/// What a person may be to a request.
#[derive(Clone, Copy)]
pub enum Role {
    Owner,
    Requestor,
    Cc,
    AdminCc,
}

/// Which roles a person has on a request.
#[derive(Clone, Copy)]
pub struct Roles {
    pub owner: bool,
    pub requestor: bool,
    pub cc: bool,
    pub admin_cc: bool,
}

impl Roles {
    /// No role, as where a right is asked for on a queue.
    #[tactic(auto, unfolding(crate::specs::People::no_roles))]
    pub fn none() -> Roles
        ensures { result ≡ words.no_roles }
    {
        Roles {
            owner: false,
            requestor: false,
            cc: false,
            admin_cc: false,
        }
    }

    /// Whether the role is one of these.
    pub fn has(self, role: Role) -> bool
        ensures { result ≡ words.has_role self role }
    {
        match role {
            Role::Owner => self.owner,
            Role::Requestor => self.requestor,
            Role::Cc => self.cc,
            Role::AdminCc => self.admin_cc,
        }
    }
}
