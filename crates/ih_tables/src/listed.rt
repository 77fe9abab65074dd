//! The ids of what an instance lists.

use crate::drafts::{Nurse, Occupant, Patient, Room, Surgeon, Theatre};
use crate::lookups::HasId;
use crate::names::Name;

/// A name that is listed for itself, as a shift type or an age group.
impl HasId for Name {
    ghost id = { λ n. n };

    fn id(&self) -> &str {
        self.as_str()
    }
}

impl HasId for Surgeon {
    ghost id = { λ x. x.id };

    fn id(&self) -> &str {
        self.id.as_str()
    }
}

impl HasId for Theatre {
    ghost id = { λ x. x.id };

    fn id(&self) -> &str {
        self.id.as_str()
    }
}

impl HasId for Room {
    ghost id = { λ x. x.id };

    fn id(&self) -> &str {
        self.id.as_str()
    }
}

impl HasId for Nurse {
    ghost id = { λ x. x.id };

    fn id(&self) -> &str {
        self.id.as_str()
    }
}

impl HasId for Occupant {
    ghost id = { λ x. x.id };

    fn id(&self) -> &str {
        self.id.as_str()
    }
}

impl HasId for Patient {
    ghost id = { λ x. x.id };

    fn id(&self) -> &str {
        self.id.as_str()
    }
}
