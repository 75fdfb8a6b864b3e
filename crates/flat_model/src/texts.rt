use crate::lists::{Items, Text};
use crate::parts::{IrqPart, Op};
use addr_base::Rights;

/// How a grant's base and length are brought to what a region can have.
#[derive(Clone, Copy, PartialEq, Eq, Debug)]
pub enum Round {
    Plain,
    Up,
    Down,
}

/// A grant as it is written.
#[derive(Clone, Copy, PartialEq, Eq, Debug)]
pub struct GrantText {
    pub base: u32,
    pub len: u32,
    pub rights: Rights,
    pub round: Round,
    pub shared: bool,
}

/// A thread as it is written.
#[derive(Debug, Drop)]
pub struct ThreadText {
    pub program: Text,
    pub steps: u32,
}

/// A box as it is written.
#[derive(Debug, Drop)]
pub struct BoxText {
    pub name: Text,
    pub size: u32,
    pub secret: bool,
    pub server: u32,
    pub threads: Items<ThreadText>,
    pub grants: Items<GrantText>,
    pub irqs: Items<IrqPart>,
}

/// A register gateway as it is written, with the names of its boxes.
#[derive(Debug, Drop)]
pub struct RegText {
    pub at: u32,
    pub op: Op,
    pub mask: u32,
    pub boxes: Items<Text>,
}

/// A gateway for remote calls as it is written, with the names of its target and its callers.
#[derive(Debug, Drop)]
pub struct RpcText {
    pub target: Text,
    pub function: u32,
    pub callers: Items<Text>,
}

/// The gateways as they are written.
#[derive(Debug, Drop)]
pub struct GateTexts {
    pub registers: Items<RegText>,
    pub gateways: Items<RpcText>,
}
