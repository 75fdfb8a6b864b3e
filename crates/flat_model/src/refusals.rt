use addr_base::Ticket;

/// A place in the input; a place with two numbers has the box first (docs/INPUT.md).
#[derive(Clone, Copy, PartialEq, Eq, Debug)]
pub enum Spot {
    Top,
    Board,
    Heap,
    AtBox(u32),
    Thread(u32, u32),
    Grant(u32, u32),
    Irq(u32, u32),
    Register(u32),
    Gateway(u32),
    Device(u32),
}

/// A key of the input; `AtBox` is the key `box`.
#[derive(Clone, Copy, PartialEq, Eq, Debug)]
pub enum Key {
    Format,
    Board,
    AtBox,
    Register,
    Gateway,
    Device,
    Script,
    Flash,
    Sram,
    Peripherals,
    Secret,
    Words,
    Heap,
    Base,
    Page,
    Count,
    Name,
    Size,
    Server,
    Thread,
    Grant,
    Irq,
    Program,
    Steps,
    Len,
    Rights,
    Round,
    Shared,
    Line,
    Handler,
    At,
    Op,
    Mask,
    Boxes,
    Function,
    Callers,
    Rings,
}

/// Why an input is refused (docs/INPUT.md).
#[derive(Clone, Copy, PartialEq, Eq, Debug)]
pub enum Refused {
    TooLong,
    NotToml,
    UnknownKey { spot: Spot },
    MissingKey { spot: Spot, key: Key },
    BadValue { spot: Spot, key: Key },
    TooMany { spot: Spot, key: Key },
    BadBoard { key: Key },
    BadName { at_box: u32 },
    TwiceNamed { at_box: u32 },
    NoRoom { at_box: u32 },
    BadGrant { at_box: u32, grant: u32 },
    GrantOutside { at_box: u32, grant: u32 },
    SelfOverlap { at_box: u32, grant: u32 },
    Clash { first: u32, second: u32 },
    LineTaken { at_box: u32, irq: u32 },
    BadGateway { spot: Spot },
    NoServer { gateway: u32 },
    BadProgram { at_box: u32, thread: u32, line: u32 },
    BadDevice { device: u32 },
    BadScript { at: u32 },
}

/// Why an input gave no configuration.
#[derive(Clone, Copy, PartialEq, Eq, Debug)]
pub enum ConfigErr {
    Refused(Refused),
    Memory,
}

/// Why a page call gave or took no page.
#[derive(Clone, Copy, PartialEq, Eq, Debug)]
pub enum PageErr {
    OutOfPages,
    BadCount,
    BadOrigin,
    NotOwner,
}

/// The ticket is not the oldest posted call of its thread to the box; `next` is that oldest one.
#[derive(Clone, Copy, PartialEq, Eq, Debug)]
pub struct NotNext {
    pub next: Option<Ticket>,
}
