//! What each step at an inbox tells, and how its seats are cut and joined.
ghost use Rattle.std.specs.Prelude.{take, drop, [], ◌++◌};
ghost use Rattle.atomic_pool.specs.InboxPlays.{looks_free, claims, frees, swaps, looks_queue, queues, looks_head, peeks, dequeues};

use crate::inbox::InboxPart;
use atomic_table::{Join, Play, Split};
use std::collections::LinkedList;

pub(crate) struct LookFree;

impl Play<(), LinkedList<InboxPart>> for LookFree {
    ghost then = { looks_free };
}

pub(crate) struct TakeSlot;

impl Play<(), LinkedList<InboxPart>> for TakeSlot {
    ghost then = { claims };
}

pub(crate) struct FreeSlot;

impl Play<(), LinkedList<InboxPart>> for FreeSlot {
    ghost then = { frees };
}

pub(crate) struct Swap;

impl Play<(), LinkedList<InboxPart>> for Swap {
    ghost then = { swaps };
}

pub(crate) struct LookQueue;

impl Play<(), LinkedList<InboxPart>> for LookQueue {
    ghost then = { looks_queue };
}

pub(crate) struct Enqueue;

impl Play<(), LinkedList<InboxPart>> for Enqueue {
    ghost then = { queues };
}

pub(crate) struct LookHead;

impl Play<(), LinkedList<InboxPart>> for LookHead {
    ghost then = { looks_head };
}

pub(crate) struct Peek;

impl Play<(), LinkedList<InboxPart>> for Peek {
    ghost then = { peeks };
}

pub(crate) struct Dequeue;

impl Play<(), LinkedList<InboxPart>> for Dequeue {
    ghost then = { dequeues };
}

pub(crate) struct FirstPart;

impl Split<LinkedList<InboxPart>> for FirstPart {
    ghost left = { λ v. drop 1 v };

    ghost right = { λ v. take 1 v };
}

pub(crate) struct AllParts;

impl Join<LinkedList<InboxPart>> for AllParts {
    ghost both = { λ v w. w ++ v };

    ghost spent = { [] };
}
