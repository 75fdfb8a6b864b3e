ghost use Rattle.std.specs.Prelude.{◌≡◌, ◌≤◌, IfOk, length, map, sum_by};
ghost use Rattle.flat_model.specs.CallRows.{started_from};
ghost use Rattle.flat_model.specs.Kernel as words;
ghost use Rattle.flat_model.specs.PageRows.{with_frames};
ghost use Rattle.flat_model.specs.Run as run_words;
ghost use Rattle.flat_model.specs.Sound.{IsSound};

use crate::banks::{put_word, word_at};
use crate::boards::Board;
use crate::calls::{CallList, collected_by, next_call, oldest_posted, posted_count, served_ticket};
use crate::events::{Collected, Frames, Started};
use crate::gateways::{gateway_for, register_read, register_write};
use crate::interrupts::{deliverable_to, has_line, saved_context};
use crate::kernel::Kernel;
use crate::lists::Items;
use crate::opening::{opening_lines, opening_memory, page_count};
use crate::pages::{allocation, blank_pages, freeing, give_frames, write_table};
use crate::parts::{BoxPart, Config, IrqPart, RegGate, RpcGate, ThreadPart};
use crate::states::{Call, CallState, Context, Lines, Memory};
use addr_base::{BoxId, Line, OutOfMemory, Ticket};
use std::alloc::Global;
use std::marker::Model;
use std::snapshot::Snapshot;

/// The kernel of the plain evaluator: plain lists, each looked through from its front, beside what it needs of its
/// configuration.
#[derive(Drop)]
pub(crate) struct PlainKernel {
    config: Snapshot<Config>,
    board: Board,
    registers: Items<RegGate>,
    gateways: Items<RpcGate>,
    homes: Items<BoxId>,
    memory: Memory,
    owners: Items<Option<BoxId>>,
    calls: CallList,
    serving: Items<Option<Ticket>>,
    lines: Lines,
}

impl Model for PlainKernel {
    ghost use Rattle.std.specs.Prelude.{◌≡◌, ◌+◌, ◌≤◌, length, map};
    ghost use Rattle.std.specs.Option.{option_map_or};
    ghost use Rattle.flat_model.specs.declared.parts.ThreadPart.{ThreadPart};
    ghost use Rattle.flat_model.specs.Acting.{call_room};
    ghost use Rattle.flat_model.specs.Kernel.{KernelState};
    ghost use Rattle.flat_model.specs.Sound.{IsSound};

    ghost Value = { KernelState };

    ghost view = { λ k. record {
      config = k.config.value;
      shared = record {
        memory = k.memory;
        owners = k.owners;
        calls = k.calls.calls;
        serving = k.serving;
        lines = k.lines;
      };
    } };

    ghost invariant = { λ k. IsSound k.config.value
        × (k.board ≡ k.config.value.board)
        × (k.registers ≡ k.config.value.registers)
        × (k.gateways ≡ k.config.value.gateways)
        × (k.homes ≡ map (λ (thread : ThreadPart). thread.home) k.config.value.threads)
        × (length k.owners ≡ option_map_or (λ heap. heap.count) k.config.value.board.heap 0)
        × (call_room k.config.value ≤ length k.calls.calls + k.calls.room) };
}

// How many steps the threads may take in all.
fn total_steps(threads: &[ThreadPart]) -> usize
    requires { sum_by (λ thread. thread.steps) threads.now ≤ 250000 }
    ensures { result ≡ sum_by (λ thread. thread.steps) threads.now }
{
    let mut total = 0;
    for thread in threads {
        total += thread.steps as usize;
    }
    total
}

// The box of each thread.
fn homes_of(alloc: Global, threads: &[ThreadPart]) -> Result<Items<BoxId>, OutOfMemory>
    ensures { IfOk result (λ homes. homes ≡ map (λ thread. thread.home) threads.now) }
{
    let mut homes = Vec::with_capacity(alloc, threads.len())?;
    for thread in threads {
        homes.push(thread.home)?;
    }
    Ok(Items::from_vec(homes))
}

impl PlainKernel {
    /// The kernel of a configuration as it is at the start.
    #[tactic(auto, unfolding(crate::specs::Run::opening_state))]
    pub fn opening(alloc: Global, cfg: &Config) -> Result<PlainKernel, OutOfMemory>
        requires { IsSound cfg.now }
        ensures { IfOk result (λ kernel. kernel ≡ record {
          config = cfg.now;
          shared = (run_words.opening_state cfg.now).shared;
        }) }
    {
        let memory = opening_memory(alloc, &cfg.board)?;
        let owners = Items::filled(alloc, None, page_count(&cfg.board.heap) as usize)?;
        let calls = CallList::new(alloc, total_steps(cfg.threads.as_slice()))?;
        let serving = Items::filled(alloc, None, cfg.boxes.len())?;
        let lines = opening_lines(alloc, cfg.boxes.len())?;
        let board = cfg.board.copied(alloc)?;
        let registers = cfg.registers.copied(alloc)?;
        let gateways = cfg.gateways.copied(alloc)?;
        let homes = homes_of(alloc, cfg.threads.as_slice())?;
        Ok(PlainKernel {
            config: Snapshot::of(cfg),
            board,
            registers,
            gateways,
            homes,
            memory,
            owners,
            calls,
            serving,
            lines,
        })
    }

    /// Who owns each page.
    pub fn owners(&self) -> &[Option<BoxId>]
        ensures { result.now ≡ self.now.shared.owners }
    {
        self.owners.as_slice()
    }

    /// Latches a line.
    pub fn latch(&mut self, line: Line)
        ensures { self.new ≡ words.after_ring self.old line.0 }
    {
        self.lines.latch(line);
    }

    // Gives the frames to the box, zeroes their pages and then writes the table.
    fn give(&mut self, b: BoxId, table: u32, frames: &[u8])
        requires { length frames.now ≤ 16 }
        ensures { self.new ≡ words.with_shared self.old
            (with_frames self.old.config.board b.0 table frames.now self.old.shared) }
    {
        give_frames(&mut self.owners, b, frames);
        blank_pages(&self.board, &mut self.memory, frames);
        write_table(&self.board, &mut self.memory, table as u64, frames);
    }

    // A call as its server gets it.
    fn started_from(&self, call: Call) -> Started
        ensures { result ≡ started_from self.now.config call }
    {
        let caller = self.homes.as_slice().get(call.ticket.thread.0 as usize);
        let args = call.args;
        Started {
            function: call.function,
            args,
            caller: caller.copied().unwrap_or(BoxId(0)),
        }
    }
}

impl Kernel for PlainKernel {
    ghost state = { λ k. k };

    fn deliverable(&self, part: &BoxPart, b: BoxId) -> Option<IrqPart> {
        deliverable_to(&self.lines, part.irqs.as_slice(), b)
    }

    fn load(&self, at: u32, n: u8) -> u32 {
        word_at(&self.board, &self.memory, at as u64, n)
    }

    fn store(&mut self, at: u32, n: u8, value: u32) {
        put_word(&self.board, &mut self.memory, at as u64, n, value);
    }

    fn alloc_pages(&mut self, part: &BoxPart, b: BoxId, n: u32, table: u32) -> Result<Frames, u8> {
        let owners = self.owners.as_slice();
        match allocation(part, b, &self.board.heap, owners, n, table) {
            Ok(frames) => {
                self.give(b, table, &frames.list[..frames.n as usize]);
                Ok(frames)
            }
            Err(status) => Err(status),
        }
    }

    fn free_page(&mut self, b: BoxId, origin: u32) -> Result<u8, u8> {
        let answer = freeing(&self.board.heap, self.owners.as_slice(), b, origin);
        if let Ok(frame) = answer {
            self.owners.put(frame as usize, None);
        }
        answer
    }

    fn enable(&mut self, part: &BoxPart, _b: BoxId, line: u32, on: bool) -> bool {
        let own = has_line(line, part.irqs.as_slice());
        if own {
            self.lines.enable(line, on);
        }
        own
    }

    fn deliver(&mut self, _part: &BoxPart, b: BoxId, irq: IrqPart, context: Context) {
        self.lines.deliver(b, irq.line, context);
    }

    fn finish_handler(&mut self, b: BoxId) -> Option<Context> {
        let context = saved_context(&self.lines, b);
        if context.is_some() {
            self.lines.finish(b);
        }
        context
    }

    fn read_register(&self, b: BoxId, n: u32) -> Option<u32> {
        register_read(self.registers.as_slice(), &self.board, &self.memory, b, n)
    }

    fn write_register(&mut self, b: BoxId, n: u32, value: u32) -> bool {
        let registers = self.registers.as_slice();
        match register_write(registers, &self.board, &self.memory, b, n, value) {
            Some(word) => {
                put_word(&self.board, &mut self.memory, word.at as u64, 4, word.value);
                true
            }
            None => false,
        }
    }

    fn callee(&self, b: BoxId, n: u32) -> Option<(BoxId, u32)> {
        match gateway_for(self.gateways.as_slice(), b, n) {
            Some(gate) => Some((gate.target, gate.function)),
            None => None,
        }
    }

    fn post(&mut self, ticket: Ticket, target: BoxId, function: u32, args: [u32; 4]) {
        self.calls.add(Call {
            ticket,
            target,
            function,
            args,
            state: CallState::Posted,
        });
    }

    fn serving(&self, _part: &BoxPart, b: BoxId) -> Option<Ticket> {
        served_ticket(self.serving.as_slice(), b)
    }

    fn finish(&mut self, _part: &BoxPart, b: BoxId, value: u32) -> Option<Ticket> {
        let served = served_ticket(self.serving.as_slice(), b);
        if let Some(ticket) = served {
            self.calls.set_state(ticket, CallState::Done(value));
            self.serving.put(b.0 as usize, None);
        }
        served
    }

    fn start(&mut self, _part: &BoxPart, b: BoxId, ticket: Ticket) -> Option<Started> {
        match next_call(ticket, b, self.calls.as_slice()) {
            Some(call) => {
                self.calls.set_state(ticket, CallState::Started);
                self.serving.put(b.0 as usize, Some(ticket));
                Some(self.started_from(call))
            }
            None => None,
        }
    }

    fn oldest(&self, b: BoxId) -> Option<Ticket> {
        match oldest_posted(b, self.calls.as_slice()) {
            Some(call) => Some(call.ticket),
            None => None,
        }
    }

    fn posted(&self, b: BoxId) -> usize {
        posted_count(b, self.calls.as_slice())
    }

    fn collect(&mut self, ticket: Ticket) -> Collected {
        let answer = collected_by(ticket, self.calls.as_slice());
        self.calls.after_asking(ticket, answer);
        answer
    }
}
