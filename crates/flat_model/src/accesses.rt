use addr_base::Kind;

/// An access that an instruction asks for: `size` bytes at `at`, into or out of a register.
#[derive(Clone, Copy, PartialEq, Eq, Debug)]
pub struct Access {
    pub kind: Kind,
    pub size: u8,
    pub at: u32,
    pub register: u8,
}
