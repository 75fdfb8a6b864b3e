ghost use Rattle.std.specs.Prelude.{⊤, ◌≡◌, [], ◌∷◌, codes};
ghost use Rattle.addr_base.specs.Rights.{all_rights, gives, read_execute, read_only, read_write};
ghost use Rattle.addr_base.specs.declared.rights.TheConstants.Rights.{ALL, READ, READ_EXECUTE, READ_WRITE};

use bitflags::{Flag, Flags};

/// What an access does.
#[derive(Clone, Copy, PartialEq, Eq, Debug)]
pub enum Kind {
    Read,
    Write,
    Fetch,
}

/// A set of the rights to read (1), to write (2) and to execute (4).
#[derive(Clone, Copy, PartialEq, Eq, Debug)]
pub struct Rights {
    bits: u8,
}

impl Rights {
    pub const READ: Rights = Rights { bits: 1 };

    pub const WRITE: Rights = Rights { bits: 2 };

    pub const EXECUTE: Rights = Rights { bits: 4 };

    pub const READ_WRITE: Rights = Rights { bits: 3 };

    pub const READ_EXECUTE: Rights = Rights { bits: 5 };

    pub const ALL: Rights = Rights { bits: 7 };

    const FLAGS: &'static [Flag<Rights>] = &[
        Flag {
            name: "READ",
            value: Rights::READ,
        },
        Flag {
            name: "WRITE",
            value: Rights::WRITE,
        },
        Flag {
            name: "EXECUTE",
            value: Rights::EXECUTE,
        },
    ];

    /// The named sets are those of the definitions.
    pub fn named_sets()
        ensures read { READ ≡ read_only }
        ensures read_write { READ_WRITE ≡ read_write }
        ensures read_execute { READ_EXECUTE ≡ read_execute }
        ensures all { ALL ≡ all_rights }
    {}

    /// Whether the set allows this kind of access.
    pub fn gives(&self, kind: Kind) -> bool
        ensures { result ≡ gives self.now kind }
    {
        match kind {
            Kind::Read => self.contains(Rights::READ),
            Kind::Write => self.contains(Rights::WRITE),
            Kind::Fetch => self.contains(Rights::EXECUTE),
        }
    }
}

impl Flags for Rights {
    type Bits = u8;

    ghost exact = { ⊤ };

    ghost table = { (codes "READ", 1) ∷ (codes "WRITE", 2) ∷ (codes "EXECUTE", 4) ∷ [] };

    ghost set_of = { λ r. r.bits };

    fn flags<'a>() -> &'a [Flag<Rights>] {
        Rights::FLAGS
    }

    fn bits(&self) -> u8 {
        self.bits
    }

    fn from_bits_retain(bits: u8) -> Rights {
        Rights { bits }
    }
}
