ghost use Rattle.std.specs.Prelude.{◌≡◌, IfOk};
ghost use Rattle.rpc_gateway.specs.Sample as sample;

use crate::Calls;
use flat_model::{BoxId, BoxPart, Config, Items, OutOfMemory, RpcGate, ThreadId, ThreadPart};
use sample_board::{config, halting, part};
use std::alloc::Global;

// The boxes s, p and q.
pub const S: BoxId = BoxId(0);

pub const P: BoxId = BoxId(1);

pub const Q: BoxId = BoxId(2);

// The server of s and its second thread, and the threads of p and q.
pub const SERVER: ThreadId = ThreadId(0);

pub const HELPER: ThreadId = ThreadId(1);

pub const OF_P: ThreadId = ThreadId(2);

pub const OF_Q: ThreadId = ThreadId(3);

fn boxes(alloc: Global) -> Result<Items<BoxPart>, OutOfMemory>
    ensures { IfOk result (λ boxes. boxes ≡ sample.three_boxes.boxes) }
{
    let s = part(alloc, 0, 0, 2, &[])?;
    let p = part(alloc, 1, 2, 1, &[])?;
    let q = part(alloc, 2, 3, 1, &[])?;
    Ok(Items::from_vec(vec![in alloc; s, p, q]?))
}

fn threads(alloc: Global) -> Result<Items<ThreadPart>, OutOfMemory>
    ensures { IfOk result (λ threads. threads ≡ sample.three_boxes.threads) }
{
    let server = halting(alloc, S.0)?;
    let helper = halting(alloc, S.0)?;
    let of_p = halting(alloc, P.0)?;
    let of_q = halting(alloc, Q.0)?;
    Ok(Items::from_vec(vec![in alloc; server, helper, of_p, of_q]?))
}

// A box s of two threads, which p and q may call, and boxes p and q of one thread, of which q may be called by p and s.
fn three_boxes(alloc: Global) -> Result<Config, OutOfMemory>
    ensures { IfOk result (λ cfg. cfg ≡ sample.three_boxes) }
{
    let to_s = RpcGate {
        target: S,
        function: 7,
        callers: 0b110,
    };
    let to_q = RpcGate {
        target: Q,
        function: 9,
        callers: 0b011,
    };
    let mut cfg = config(alloc, boxes(alloc)?, threads(alloc)?);
    cfg.gateways = Items::from_vec(vec![in alloc; to_s, to_q]?);
    Ok(cfg)
}

// The table of the three boxes, with room for forty calls.
pub fn no_calls(alloc: Global) -> Result<Calls, OutOfMemory>
    ensures config { IfOk result (λ calls. calls.config ≡ sample.three_boxes) }
    ensures spare { IfOk result (λ calls. calls.spare ≡ 40) }
{
    let cfg = three_boxes(alloc)?;
    Calls::new(alloc, &cfg)
}
