ghost use Rattle.std.specs.Prelude.{◌≡◌, Some, if◌then◌else◌};
ghost use Rattle.flat_model.specs.Acting.{IsPartOf};
ghost use Rattle.flat_model.specs.Interrupts.{deliverable_to, has_line};
ghost use Rattle.flat_model.specs.Kernel.{outcome_of};
ghost use Rattle.flat_model.specs.LineRows as line_words;
ghost use Rattle.flat_model.specs.Turn as spec;

use crate::actors::Actor;
use crate::classes::KernelCall;
use crate::events::Reply;
use crate::kernel::Kernel;
use crate::parts::IrqPart;
use crate::states::ThreadState;

impl Actor<'_> {
    // The delivery of an interrupt: its latch is cleared, place and registers are saved, the handler is next.
    pub(crate) fn delivery_row<K: Kernel>(
        self,
        kernel: &mut K,
        thread: &mut ThreadState,
        irq: IrqPart,
    ) -> Reply
        requires part { IsPartOf (K.state kernel.old).config
            self.who.home.0 self.part.now }
        requires due { deliverable_to (K.state kernel.old).shared.lines
            self.part.now.irqs self.who.home.0 ≡ Some irq }
        ensures exact { line_words.delivery_row self.entry.who.home.0
            (K.state kernel.old).shared thread.old irq
            ≡ outcome_of (K.state kernel.new) thread.new result }
        ensures config { (K.state kernel.new).config ≡ (K.state kernel.old).config }
    {
        kernel.deliver(self.part, self.who.home, irq, thread.context());
        thread.interrupt(irq.line.0, irq.handler);
        Reply::Irq(irq.line)
    }

    // `irq_on` and `irq_off`: not allowed for a line that is not the box's.
    pub(crate) fn irq_enable_row<K: Kernel>(
        self,
        kernel: &mut K,
        thread: &mut ThreadState,
        line: u32,
        on: bool,
    ) -> Reply
        requires { IsPartOf (K.state kernel.old).config
            self.who.home.0 self.part.now }
        ensures exact { line_words.irq_enable_row (K.state kernel.old).shared thread.old line on
            (has_line line self.entry.part.now.irqs)
            ≡ outcome_of (K.state kernel.new) thread.new result }
        ensures config { (K.state kernel.new).config ≡ (K.state kernel.old).config }
    {
        if kernel.enable(self.part, self.who.home, line, on) {
            thread.finish_call()
        } else {
            thread.refuse_call(9)
        }
    }

    // `irq_return`: back to what was saved, or not allowed outside a handler.
    pub(crate) fn irq_return_row<K: Kernel>(self, kernel: &mut K, thread: &mut ThreadState) -> Reply
        ensures exact { spec.kernel_row (K.state kernel.old).config self.entry.who
            self.entry.part.now (K.state kernel.old).shared thread.old KernelCall.IrqReturn
            ≡ outcome_of (K.state kernel.new) thread.new result }
        ensures config { (K.state kernel.new).config ≡ (K.state kernel.old).config }
    {
        // Only the box's first thread is ever in its handler.
        if self.who.thread.0 as u32 != self.part.first {
            return thread.refuse_call(9);
        }
        match kernel.finish_handler(self.who.home) {
            Some(context) => {
                thread.resume(context);
                Reply::Done
            }
            None => thread.refuse_call(9),
        }
    }
}
