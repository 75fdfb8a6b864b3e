ghost use Rattle.std.specs.Prelude.{◌≡◌, true, IfOk};
ghost use Rattle.flat_model.specs.Kernel.{after_ring};
ghost use Rattle.flat_model.specs.Pages.{HasOwners};
ghost use Rattle.flat_model.specs.Run as run_words;
ghost use Rattle.flat_model.specs.Sound.{IsSound};
ghost use Rattle.flat_model.specs.Want.{is_owned_line};

use crate::tables::{
    frames_of, irq_of, is_bad_count, may_write_words, saved_at, status_of, write_table,
};
use arrayvec::ArrayVec;
use flat_model::{
    BoxId, BoxPart, Collected, Config, Context, Frames, HeapPart, IrqPart, Items, Kernel, Line,
    OutOfMemory, Started, Ticket,
};
use irq_owner::Irqs;
use page_heap::Heap;
use phys_memory::Banks;
use register_gateway::Registers;
use rpc_gateway::Calls;
use std::alloc::Global;
use std::marker::Model;
use std::snapshot::Snapshot;

/// What the threads of a machine share: memory in its banks, the owner of each page, the interrupt lines with what each
/// box saved at a delivery, the register gateways, and the calls with the one that each box's server serves.
#[derive(Drop)]
pub(crate) struct MachineKernel {
    config: Snapshot<Config>,
    pages: Option<HeapPart>,
    banks: Banks,
    heap: Heap,
    irqs: Irqs,
    saved: Items<Option<Context>>,
    registers: Registers,
    calls: Calls,
}

impl Model for MachineKernel {
    ghost use Rattle.flat_model.specs.Kernel.{KernelState};
    ghost use Rattle.machine_core.specs.Parts.{AreParts};

    ghost Value = { KernelState };

    ghost view = { λ k. record {
      config = k.config.value;
      shared = record {
        memory = k.banks.memory;
        owners = k.heap.owners;
        calls = k.calls.calls;
        serving = k.calls.serving;
        lines = record {
          latched = k.irqs.latched;
          enabled = k.irqs.enabled;
          saved = k.saved;
        };
      };
    } };

    ghost invariant = { λ k. AreParts
        k.config.value k.pages k.banks k.heap k.irqs k.saved k.registers k.calls };
}

impl MachineKernel {
    /// The kernel of a configuration as it is at the start.
    #[tactic(auto, unfolding(flat_model::specs::Run::opening_state))]
    pub fn opening(alloc: Global, cfg: &Config) -> Result<MachineKernel, OutOfMemory>
        requires { IsSound cfg.now }
        ensures { IfOk result (λ kernel. kernel ≡ record {
          config = cfg.now;
          shared = (run_words.opening_state cfg.now).shared;
        }) }
    {
        let banks = Banks::new(alloc, &cfg.board)?;
        let heap = Heap::new(alloc, &cfg.board)?;
        let saved = Items::filled(alloc, None, cfg.boxes.len())?;
        let registers = Registers::new(alloc, cfg)?;
        let calls = Calls::new(alloc, cfg)?;
        let irqs = Irqs::new(cfg);
        Ok(MachineKernel {
            config: Snapshot::of(cfg),
            pages: cfg.board.heap,
            banks,
            heap,
            irqs,
            saved,
            registers,
            calls,
        })
    }

    /// Who owns each page.
    pub fn owners(&self) -> &Vec<Option<BoxId>>
        ensures exact { result.now.items ≡ self.now.shared.owners }
        ensures known { HasOwners self.now.config.board.heap result.now.items }
    {
        self.heap.owners()
    }

    /// Latches a line that a box owns.
    pub fn ring(&mut self, line: Line)
        requires { is_owned_line self.old.config line.0 ≡ true }
        ensures { self.new ≡ after_ring self.old line.0 }
    {
        self.irqs.ring(line);
    }
}

impl Kernel for MachineKernel {
    ghost state = { λ k. k };

    fn deliverable(&self, part: &BoxPart, b: BoxId) -> Option<IrqPart> {
        // Most boxes own no line, and need no look at the lines.
        if part.irqs.len() == 0 {
            return None;
        }
        match self.irqs.next_for(b) {
            Some(line) => irq_of(line, part.irqs.as_slice()),
            None => None,
        }
    }

    fn load(&self, at: u32, n: u8) -> u32 {
        self.banks.load(at, n as u32)
    }

    fn store(&mut self, at: u32, n: u8, value: u32) {
        self.banks.store(at, n as u32, value);
    }

    fn alloc_pages(&mut self, part: &BoxPart, b: BoxId, n: u32, table: u32) -> Result<Frames, u8> {
        if is_bad_count(n) {
            return Err(13);
        }
        // What the box holds before any frame is its own says whether it may write the table.
        let owners = self.heap.owners().as_slice();
        if !may_write_words(part, b, &self.pages, owners, table as u64, n) {
            return Err(6);
        }
        let mut frames = ArrayVec::new();
        match self.heap.alloc_frames(&mut self.banks, b, n, &mut frames) {
            Ok(()) => {
                write_table(&mut self.banks, &self.heap, table, frames.as_slice());
                Ok(frames_of(frames.as_slice()))
            }
            Err(error) => Err(status_of(error)),
        }
    }

    fn free_page(&mut self, b: BoxId, origin: u32) -> Result<u8, u8> {
        match self.heap.free(b, origin) {
            Ok(frame) => Ok(frame),
            Err(error) => Err(status_of(error)),
        }
    }

    fn enable(&mut self, _part: &BoxPart, b: BoxId, line: u32, on: bool) -> bool {
        let answer = if on {
            self.irqs.enable(b, line)
        } else {
            self.irqs.disable(b, line)
        };
        answer.is_ok()
    }

    fn deliver(&mut self, _part: &BoxPart, b: BoxId, _irq: IrqPart, context: Context) {
        self.irqs.deliver(b);
        self.saved.put(b.0 as usize, Some(context));
    }

    fn finish_handler(&mut self, b: BoxId) -> Option<Context> {
        let context = saved_at(self.saved.as_slice(), b);
        if context.is_some() {
            let _ = self.irqs.finish(b);
            self.saved.put(b.0 as usize, None);
        }
        context
    }

    fn read_register(&self, b: BoxId, n: u32) -> Option<u32> {
        self.registers.read(&self.banks, b, n).ok()
    }

    fn write_register(&mut self, b: BoxId, n: u32, value: u32) -> bool {
        self.registers.write(&mut self.banks, b, n, value).is_ok()
    }

    fn callee(&self, b: BoxId, n: u32) -> Option<(BoxId, u32)> {
        self.calls.allowed(b, n)
    }

    fn post(&mut self, ticket: Ticket, target: BoxId, function: u32, args: [u32; 4]) {
        self.calls.call(ticket.thread, target, function, args);
    }

    fn serving(&self, part: &BoxPart, _b: BoxId) -> Option<Ticket> {
        self.calls.serving(part.server)
    }

    fn finish(&mut self, part: &BoxPart, _b: BoxId, value: u32) -> Option<Ticket> {
        self.calls.finish(part.server, value).ok()
    }

    fn start(&mut self, part: &BoxPart, _b: BoxId, ticket: Ticket) -> Option<Started> {
        self.calls.start(part.server, ticket).ok()
    }

    fn oldest(&self, b: BoxId) -> Option<Ticket> {
        self.calls.oldest(b)
    }

    fn posted(&self, b: BoxId) -> usize {
        self.calls.posted(b) as usize
    }

    fn collect(&mut self, ticket: Ticket) -> Collected {
        self.calls.collect(ticket.thread, ticket.seq)
    }
}
