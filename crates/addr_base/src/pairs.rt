/// One region of the protection unit: its base register and its attribute and size register
/// (Armv7-M Architecture Reference Manual, B3.5.8 and B3.5.9).
#[derive(Clone, Copy, Default, PartialEq, Eq, Debug)]
pub struct Pair {
    pub rbar: u32,
    pub rasr: u32,
}

/// What the unit says of an access: the slot that granted it, or a denial.
#[derive(Clone, Copy, PartialEq, Eq, Debug)]
pub enum Verdict {
    Granted(u8),
    Denied,
}

/// A pair that was loaded, and the slot that it went to.
#[derive(Clone, Copy, PartialEq, Eq, Debug)]
pub struct Rotated {
    pub slot: u8,
    pub pair: Pair,
}

/// A pair that is no valid enabled region.
#[derive(Clone, Copy, PartialEq, Eq, Debug)]
pub struct BadRegion {
    pub pair: Pair,
}
