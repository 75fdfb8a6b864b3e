ghost use Rattle.std.specs.Prelude.{◌≡◌, ℕ, ◌<◌, suc};
ghost use Rattle.addr_base.specs.declared.identity.BoxId.{BoxId};
ghost use Rattle.addr_base.specs.declared.identity.ThreadId.{ThreadId};
ghost use Rattle.addr_base.specs.declared.identity.Ticket.{Ticket};
ghost use Rattle.flat_model.specs.declared.events.Collected.TheVariants as got;
ghost use Rattle.flat_model.specs.declared.logs.Log.{Log};
ghost use Rattle.flat_model.specs.declared.parts.Config.{Config};
ghost use Rattle.flat_model.specs.Legal.{IsLegal};
ghost use Rattle.flat_model.specs.Sound.{IsSound};
ghost use Rattle.uvisor_run.specs.CallLaws.{GivesAt, IsServerOf, PostsAt, StartsAt, WasPosted, result_at};

/// No two entries of a legal log start the same call. Each start is of a call that the ticket's
/// thread posted before, to the box whose server the starting thread is, and no two entries post
/// the same ticket.
pub fn a_call_starts_once()
    ensures once { (config : Config) (log : Log) → IsSound config → IsLegal config log
        → (ticket : Ticket) (t u : ThreadId) (i j : ℕ)
        → StartsAt log i t ticket → StartsAt log j u ticket → i ≡ j }
    ensures posted { (config : Config) (log : Log) → IsSound config → IsLegal config log
        → (ticket : Ticket) (t : ThreadId) (i : ℕ) → StartsAt log i t ticket
        → (b : BoxId) × WasPosted config log i ticket b × IsServerOf config b t }
    ensures posted_once { (config : Config) (log : Log) → IsSound config → IsLegal config log
        → (ticket : Ticket) (b c : BoxId) (i j : ℕ)
        → PostsAt config log i ticket b → PostsAt config log j ticket c → i ≡ j }
{}

/// No two entries of a legal log give the result of the same call. An entry that gives one gives the
/// one that is there for that call, to the thread that posted the call, and a result goes away by
/// being given, and in no other way.
pub fn a_result_is_collected_once()
    ensures once { (config : Config) (log : Log) → IsSound config → IsLegal config log
        → (ticket : Ticket) (v w : ℕ) (i j : ℕ)
        → GivesAt config log i ticket v → GivesAt config log j ticket w → i ≡ j }
    ensures posted { (config : Config) (log : Log) → IsSound config → IsLegal config log
        → (ticket : Ticket) (v : ℕ) (i : ℕ) → GivesAt config log i ticket v
        → (b : BoxId) × WasPosted config log i ticket b }
    ensures result { (config : Config) (log : Log) → IsSound config → IsLegal config log
        → (ticket : Ticket) (v : ℕ) (i : ℕ) → GivesAt config log i ticket v
        → (result_at config log i ticket ≡ got.Done v)
        × (result_at config log (suc i) ticket ≡ got.NoSuch) }
    ensures given { (config : Config) (log : Log) → IsSound config → IsLegal config log
        → (ticket : Ticket) (v : ℕ) (i : ℕ) → result_at config log i ticket ≡ got.Done v
        → result_at config log (suc i) ticket ≡ got.NoSuch → GivesAt config log i ticket v }
{}

/// Calls of one thread to one box start in the order in which the thread posted them, which is
/// that of their numbers, and none is passed over: a call starts only behind the starts of those
/// that were posted before it.
pub fn calls_keep_their_order()
    ensures order { (config : Config) (log : Log) → IsSound config → IsLegal config log
        → (first second : Ticket) (b : BoxId) (p q : ℕ)
        → first.thread ≡ second.thread
        → PostsAt config log p first b → PostsAt config log q second b → p < q
        → (t u : ThreadId) (i j : ℕ)
        → StartsAt log i t first → StartsAt log j u second → i < j }
    ensures none_passed { (config : Config) (log : Log) → IsSound config → IsLegal config log
        → (first second : Ticket) (b : BoxId) (p q : ℕ)
        → first.thread ≡ second.thread
        → PostsAt config log p first b → PostsAt config log q second b → p < q
        → (u : ThreadId) (j : ℕ) → StartsAt log j u second
        → (t : ThreadId) × (i : ℕ) × (i < j) × StartsAt log i t first }
    ensures numbers { (config : Config) (log : Log) → IsSound config → IsLegal config log
        → (first second : Ticket) (t : ThreadId) (i j : ℕ)
        → first.thread ≡ second.thread
        → StartsAt log i t first → StartsAt log j t second → i < j
        → first.seq < second.seq }
{}
