ghost use Rattle.std.specs.Prelude.{◌≡◌};
ghost use Rattle.flat_model.specs.Kernel.{outcome_of};
ghost use Rattle.flat_model.specs.Turn as spec;

use crate::actors::Actor;
use crate::classes::KernelCall;
use crate::events::Reply;
use crate::kernel::Kernel;
use crate::states::ThreadState;

impl Actor<'_> {
    // `gw_read`: what the gateway reads, or not allowed.
    pub(crate) fn gw_read_row<K: Kernel>(
        self,
        kernel: &K,
        thread: &mut ThreadState,
        r: u8,
        n: u32,
    ) -> Reply
        ensures { spec.kernel_row (K.state kernel.now).config self.entry.who
            self.entry.part.now (K.state kernel.now).shared thread.old (KernelCall.GwRead r n)
            ≡ outcome_of (K.state kernel.now) thread.new result }
    {
        match kernel.read_register(self.who.home, n) {
            Some(value) => thread.answer_call(r, value),
            None => thread.refuse_call(9),
        }
    }

    // `gw_write`: the gateway's word is written, or not allowed.
    pub(crate) fn gw_write_row<K: Kernel>(
        self,
        kernel: &mut K,
        thread: &mut ThreadState,
        r: u8,
        n: u32,
    ) -> Reply
        ensures exact { spec.kernel_row (K.state kernel.old).config self.entry.who
            self.entry.part.now (K.state kernel.old).shared thread.old (KernelCall.GwWrite r n)
            ≡ outcome_of (K.state kernel.new) thread.new result }
        ensures config { (K.state kernel.new).config ≡ (K.state kernel.old).config }
    {
        if kernel.write_register(self.who.home, n, thread.register(r)) {
            thread.finish_call()
        } else {
            thread.refuse_call(9)
        }
    }
}
