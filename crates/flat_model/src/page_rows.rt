ghost use Rattle.std.specs.Prelude.{◌≡◌};
ghost use Rattle.flat_model.specs.Kernel.{outcome_of};
ghost use Rattle.flat_model.specs.Turn as spec;

use crate::actors::Actor;
use crate::classes::KernelCall;
use crate::events::Reply;
use crate::kernel::Kernel;
use crate::states::ThreadState;

impl Actor<'_> {
    // `pages_alloc`: frames for the table, or a status.
    pub(crate) fn pages_alloc_row<K: Kernel>(
        self,
        kernel: &mut K,
        thread: &mut ThreadState,
        n: u8,
        table: u8,
    ) -> Reply
        ensures exact { spec.kernel_row (K.state kernel.old).config self.entry.who
            self.entry.part.now (K.state kernel.old).shared
            thread.old (KernelCall.PagesAlloc n table)
            ≡ outcome_of (K.state kernel.new) thread.new result }
        ensures config { (K.state kernel.new).config ≡ (K.state kernel.old).config }
    {
        let count = thread.register(n);
        let at = thread.register(table);
        match kernel.alloc_pages(self.part, self.who.home, count, at) {
            Ok(frames) => {
                thread.give_status(0);
                Reply::Given(frames)
            }
            Err(status) => thread.refuse_call(status),
        }
    }

    // `page_free`: the page at an address goes back, or a status.
    pub(crate) fn page_free_row<K: Kernel>(
        self,
        kernel: &mut K,
        thread: &mut ThreadState,
        origin: u8,
    ) -> Reply
        ensures exact { spec.kernel_row (K.state kernel.old).config self.entry.who
            self.entry.part.now (K.state kernel.old).shared thread.old (KernelCall.PageFree origin)
            ≡ outcome_of (K.state kernel.new) thread.new result }
        ensures config { (K.state kernel.new).config ≡ (K.state kernel.old).config }
    {
        match kernel.free_page(self.who.home, thread.register(origin)) {
            Ok(_) => thread.finish_call(),
            Err(status) => thread.refuse_call(status),
        }
    }
}
