//! A small value to hand round: a mark that stays, and notes that say who made them.
ghost use Rattle.std.specs.Prelude.{◌≡◌, ℕ, ◌∷◌, [], ◌++◌, IfOk, IfErr, eqb, filter};

use crate::Stepped;
use std::alloc::{AllocError, Global};
use std::marker::Model;

#[derive(Clone, Copy, Debug, Drop, PartialEq, Eq)]
pub(super) struct Note {
    pub(super) by: u32,
    pub(super) what: u32,
}

#[derive(Drop)]
pub(super) struct Slate {
    mark: u32,
    notes: Vec<Note>,
}

impl Model for Slate {
    ghost use Rattle.std.specs.Prelude.{ℕ, List};
    ghost use Rattle.cpu_token.specs.declared.tests.slate.Note.{Note};

    ghost Value = { ℕ × List Note };

    ghost view = { λ a. (a.mark, a.notes.items) };
}

impl Stepped for Slate {
    type Entry = Note;

    type Fixed = u32;

    ghost entries = { λ v k. filter (λ n. eqb n.by k) v.1 };

    ghost fixed = { λ v. v.0 };
}

impl Slate {
    pub(super) fn new(alloc: Global, mark: u32) -> Slate
        ensures { result ≡ (mark, []) }
    {
        Slate {
            mark,
            notes: Vec::new(alloc),
        }
    }

    pub(super) fn note(&mut self, by: u32, what: u32) -> Result<(), AllocError>
        ensures ok { IfOk result (λ _. self.new
            ≡ (self.old.0, self.old.1 ++ record { by = by; what = what } ∷ [])) }
        ensures err { IfErr result (λ _. self.new ≡ self.old) }
    {
        self.notes.push(Note { by, what })?;
        Ok(())
    }

    pub(super) fn mark(&self) -> u32 {
        self.mark
    }

    pub(super) fn notes(&self) -> &[Note] {
        self.notes.as_slice()
    }
}
