//! Accesses, and what a page allows them (appendix H).
ghost use Rattle.std.specs.Prelude.{◌≡◌, ℕ, ◌<◌};
ghost use Rattle.v8_mmu.specs.Permissions.{allows, rights_of, access_type};

/// What an access is for. `StoreCode` is a store to an instruction space.
#[derive(Clone, Copy, PartialEq, Eq)]
pub enum AccessKind {
    Load,
    Fetch,
    Store,
    StoreCode,
}

/// An access in user or supervisor mode.
#[derive(Clone, Copy, PartialEq, Eq)]
pub struct Access {
    pub user: bool,
    pub kind: AccessKind,
}

impl Access {
    /// The access type of the fault status register, 0 to 7 (appendix H).
    pub fn type_number(self) -> u8
        ensures value { result ≡ access_type self }
        ensures small { result < 8 }
    {
        let kind = match self.kind {
            AccessKind::Load => 0,
            AccessKind::Fetch => 2,
            AccessKind::Store => 4,
            AccessKind::StoreCode => 6,
        };
        if self.user { kind } else { kind + 1 }
    }
}

/// What a page may be used for.
#[derive(Clone, Copy)]
pub struct Rights {
    pub read: bool,
    pub write: bool,
    pub run: bool,
}

const NONE: Rights = Rights {
    read: false,
    write: false,
    run: false,
};

const READ: Rights = Rights {
    read: true,
    write: false,
    run: false,
};

const READ_WRITE: Rights = Rights {
    read: true,
    write: true,
    run: false,
};

const READ_RUN: Rights = Rights {
    read: true,
    write: false,
    run: true,
};

const ALL: Rights = Rights {
    read: true,
    write: true,
    run: true,
};

const RUN: Rights = Rights {
    read: false,
    write: false,
    run: true,
};

fn rights_for(acc: u32, user: bool) -> Rights
    ensures { result ≡ rights_of acc user }
{
    match acc {
        0 => READ,
        1 => READ_WRITE,
        2 => READ_RUN,
        3 => ALL,
        4 => RUN,
        5 => if user { READ } else { READ_WRITE },
        6 => if user { NONE } else { READ_RUN },
        _ => if user { NONE } else { ALL },
    }
}

/// Whether a page's entry allows an access.
#[tactic(auto, unfolding(crate::specs::Permissions::allows))]
pub fn is_permitted(word: u32, access: Access) -> bool
    ensures { result ≡ allows word access }
{
    let rights = rights_for((word >> 2) & 7, access.user);
    match access.kind {
        AccessKind::Load => rights.read,
        AccessKind::Fetch => rights.run,
        AccessKind::Store => rights.write,
        AccessKind::StoreCode => rights.write && rights.run,
    }
}
