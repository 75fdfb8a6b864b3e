ghost use Rattle.std.specs.Prelude.{◌≡◌, ◌+◌, ◌^◌, ◌<◌, ◌≤◌, None, Some, is_some, length};
ghost use Rattle.std.specs.Option.{option_map};
ghost use Rattle.flat_model.specs.Acting.{IsPartOf, call_room};
ghost use Rattle.flat_model.specs.CallRows.{served_ticket};
ghost use Rattle.flat_model.specs.Calls.{calls_of, collected_by, oldest_posted, posted_count};
ghost use Rattle.flat_model.specs.Interrupts.{deliverable_to, has_line, saved_context};
ghost use Rattle.flat_model.specs.Kernel as words;
ghost use Rattle.flat_model.specs.Kernel.{KernelState};
ghost use Rattle.flat_model.specs.KernelCalls as call_words;

use crate::events::{Collected, Frames, Started};
use crate::parts::{BoxPart, IrqPart};
use crate::states::Context;
use addr_base::{BoxId, Ticket};

/// What the threads of a configuration share, as a turn asks for it and changes it. Contracts see the configuration,
/// which never changes, and the shared state of the flat machine. Where a method takes a box, its part is that of the
/// configuration.
pub trait Kernel {
    ghost state: { Self → KernelState };

    /// The lowest line that can be delivered to this box.
    fn deliverable(&self, part: &BoxPart, b: BoxId) -> Option<IrqPart>
        requires { IsPartOf (state self.now).config b.0 part.now }
        ensures { result ≡ deliverable_to (state self.now).shared.lines part.now.irqs b.0 };

    /// The word of `n` bytes at an address, the lowest first; a byte outside the banks counts as 0.
    fn load(&self, at: u32, n: u8) -> u32
        requires { n ≤ 4 }
        ensures { result ≡ words.word_in (state self.now) at n };

    /// Writes the `n` low bytes of a value at an address; outside the banks nothing changes.
    fn store(&mut self, at: u32, n: u8, value: u32)
        requires { n ≤ 4 }
        ensures { state self.new ≡ words.after_store (state self.old) at n value };

    /// Gives the box `n` pages, zeroed, with their addresses in a table at an address, or answers a status and changes
    /// nothing: 13 where `n` is 0 or above 16, 6 where the box may not write the table, 5 where too few pages are free.
    fn alloc_pages(&mut self, part: &BoxPart, b: BoxId, n: u32, table: u32) -> Result<Frames, u8>
        ensures answer { result ≡ words.told
            (words.allocation_in (state self.old) part.now b.0 n table) }
        ensures exact { state self.new ≡ words.after_allocation (state self.old) b.0 table
            (words.allocation_in (state self.old) part.now b.0 n table) };

    /// Takes back the page at an address and answers its frame, or a status, and then nothing changes: 7 where no page
    /// begins there, 8 where it is not the box's.
    fn free_page(&mut self, b: BoxId, origin: u32) -> Result<u8, u8>
        ensures answer { result ≡ words.freeing_in (state self.old) b.0 origin }
        ensures exact { state self.new ≡ words.after_freeing (state self.old) result };

    /// Enables or disables a line, where the box owns it: false where it does not, and then nothing changes.
    fn enable(&mut self, part: &BoxPart, b: BoxId, line: u32, on: bool) -> bool
        requires { IsPartOf (state self.old).config b.0 part.now }
        ensures answer { result ≡ has_line line part.now.irqs }
        ensures exact { state self.new ≡ words.after_enabling (state self.old) line on result };

    /// Delivers to a box the line that can be delivered to it: its latch is cleared, and the context is saved.
    fn deliver(&mut self, part: &BoxPart, b: BoxId, irq: IrqPart, context: Context)
        requires part { IsPartOf (state self.old).config b.0 part.now }
        requires due { deliverable_to (state self.old).shared.lines part.now.irqs b.0 ≡ Some irq }
        ensures { state self.new ≡ words.after_delivery (state self.old) b.0 irq.line.0 context };

    /// Ends the box's handler and answers what was saved; none where the box is in no handler.
    fn finish_handler(&mut self, b: BoxId) -> Option<Context>
        ensures answer { result ≡ saved_context (state self.old).shared.lines b.0 }
        ensures exact { state self.new ≡ words.after_return (state self.old) b.0 result };

    /// What a register gateway reads; none where there is no such gateway, the box may not use it, or it writes.
    fn read_register(&self, b: BoxId, n: u32) -> Option<u32>
        ensures { result ≡ words.read_in (state self.now) b.0 n };

    /// Writes by a register gateway: false where there is no such gateway, the box may not use it, or it reads, and then
    /// nothing changes.
    fn write_register(&mut self, b: BoxId, n: u32, value: u32) -> bool
        ensures answer { result ≡ is_some (words.written_in (state self.old) b.0 n value) }
        ensures exact { state self.new ≡ words.after_writing (state self.old)
            (words.written_in (state self.old) b.0 n value) };

    /// The target and the function of a gateway for calls; none where there is no such gateway, or the box may not call
    /// by it.
    fn callee(&self, b: BoxId, n: u32) -> Option<(BoxId, u32)>
        ensures { result ≡ option_map (λ gate. (gate.target, gate.function))
            (call_words.gateway_in (state self.now) b.0 n) };

    /// Posts a call. Its number is one more than its thread has made, and fewer calls were made than may be made at all.
    fn post(&mut self, ticket: Ticket, target: BoxId, function: u32, args: [u32; 4])
        requires number { ticket.seq ≡
            calls_of ticket.thread.0 (state self.old).shared.calls + 1 }
        requires room { length (state self.old).shared.calls < call_room (state self.old).config }
        ensures { state self.new ≡ call_words.after_posting (state self.old)
            (call_words.posted_call ticket target function args) };

    /// The call that the server of the box serves; none where it serves none.
    fn serving(&self, part: &BoxPart, b: BoxId) -> Option<Ticket>
        requires { IsPartOf (state self.now).config b.0 part.now }
        ensures { result ≡ served_ticket (state self.now).shared.serving b.0 };

    /// Answers the call that the server of the box serves; none where it serves none, and then nothing changes.
    fn finish(&mut self, part: &BoxPart, b: BoxId, value: u32) -> Option<Ticket>
        requires { IsPartOf (state self.old).config b.0 part.now }
        ensures answer { result ≡ served_ticket (state self.old).shared.serving b.0 }
        ensures exact { state self.new ≡
            call_words.after_finishing (state self.old) b.0 value result };

    /// Starts a call for the server of the box, which serves none; none where the ticket is not the oldest of its thread
    /// that is posted to the box, and then nothing changes.
    fn start(&mut self, part: &BoxPart, b: BoxId, ticket: Ticket) -> Option<Started>
        requires part { IsPartOf (state self.old).config b.0 part.now }
        requires free { served_ticket (state self.old).shared.serving b.0 ≡ None }
        ensures answer { result ≡ call_words.started_in (state self.old) b.0 ticket }
        ensures exact { state self.new ≡ call_words.after_start (state self.old) b.0 ticket };

    /// The oldest call that is posted to the box.
    fn oldest(&self, b: BoxId) -> Option<Ticket>
        ensures { result ≡ option_map (λ call. call.ticket)
            (oldest_posted b.0 (state self.now).shared.calls) };

    /// How many calls are posted to the box.
    fn posted(&self, b: BoxId) -> usize
        ensures { result ≡ posted_count b.0 (state self.now).shared.calls };

    /// What the caller gets by a ticket; a result that it gets is collected.
    fn collect(&mut self, ticket: Ticket) -> Collected
        ensures answer { result ≡ collected_by ticket (state self.old).shared.calls }
        ensures exact { state self.new ≡ words.after_asked (state self.old) ticket result };
}
