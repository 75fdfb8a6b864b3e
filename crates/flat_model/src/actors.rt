ghost use Rattle.std.specs.Prelude.{◌≡◌, ◌<◌, None, Some, false, IfNone, IfSome, length, slice_get};
ghost use Rattle.std.specs.Option.{ForSome};
ghost use Rattle.flat_model.specs.Actors as spec;
ghost use Rattle.flat_model.specs.Thread as thread_words;

use crate::lists::Items;
use crate::parts::{BoxPart, Config, ThreadPart};
use crate::states::ThreadState;
use addr_base::{BoxId, ThreadId};

/// Who acts: the box, the thread, and whether there is room for a call.
#[derive(Clone, Copy, PartialEq, Eq, Debug)]
pub struct Who {
    pub home: BoxId,
    pub thread: ThreadId,
    pub room: bool,
}

/// Who acts at a turn, with its box and its program.
#[derive(Clone, Copy)]
pub struct Actor<'a> {
    pub who: Who,
    pub part: &'a BoxPart,
    pub program: &'a ThreadPart,
}

impl<'a> Actor<'a> {
    /// The actor that the thread with this number is; none where there is no such thread or box, or the thread has
    /// ended.
    pub fn of(
        cfg: &'a Config,
        threads: &Items<ThreadState>,
        t: ThreadId,
        room: bool,
    ) -> Option<Actor<'a>>
        ensures none { IfNone result (spec.live_actor cfg.now
            (slice_get cfg.now.threads t.0) (slice_get threads.now t.0) ≡ None) }
        ensures some { IfSome result (λ actor.
            (slice_get cfg.now.threads t.0 ≡ Some actor.program.now)
            × (slice_get cfg.now.boxes actor.program.now.home.0 ≡ Some actor.part.now)
            × (actor.who ≡ record { home = actor.program.now.home; thread = t; room = room })
            × (t.0 < length threads.now)
            × ForSome (slice_get threads.now t.0) (λ thread.
            thread_words.has_ended thread ≡ false)) }
    {
        let program = cfg.program(t)?;
        let thread = threads.as_slice().get(t.0 as usize)?;
        if thread.has_ended() {
            return None;
        }
        let part = cfg.part(program.home)?;
        let who = Who {
            home: program.home,
            thread: t,
            room,
        };
        Some(Actor { who, part, program })
    }
}
