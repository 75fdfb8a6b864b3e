/// The number of a box, in the order of the configuration.
#[derive(Clone, Copy, PartialEq, Eq, Debug)]
pub struct BoxId(pub u8);

/// The number of a thread, counted through all boxes in order.
#[derive(Clone, Copy, Default, PartialEq, Eq, Debug)]
pub struct ThreadId(pub u8);

/// An interrupt line, from 0 to 63.
#[derive(Clone, Copy, PartialEq, Eq, Debug)]
pub struct Line(pub u8);

/// A call by the thread that made it and that thread's own count of its calls, starting at 1.
#[derive(Clone, Copy, Default, PartialEq, Eq, Debug)]
pub struct Ticket {
    pub thread: ThreadId,
    pub seq: u32,
}
