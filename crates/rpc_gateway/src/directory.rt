ghost use Rattle.std.specs.Prelude.{◌≡◌, IfOk, slice_get};
ghost use Rattle.flat_model.specs.CallRows as call_words;
ghost use Rattle.flat_model.specs.Registers as register_words;
ghost use Rattle.rpc_gateway.specs.Kept.{homes_of, servers_of};
ghost use Rattle.rpc_gateway.specs.Servers as server_words;

use flat_model::{BoxId, BoxPart, Config, OutOfMemory, RpcGate, ThreadId, ThreadPart};
use std::alloc::Global;
use std::marker::Model;
use std::snapshot::Snapshot;

/// What calls need of a configuration: the gateways, the home of each thread and the server of each box. Contracts see
/// the configuration.
#[derive(Drop)]
pub(crate) struct Directory {
    config: Snapshot<Config>,
    gateways: Vec<RpcGate>,
    homes: Vec<BoxId>,
    servers: Vec<ThreadId>,
}

impl Model for Directory {
    ghost use Rattle.flat_model.specs.declared.parts.Config.{Config};
    ghost use Rattle.rpc_gateway.specs.Kept.{IsDirectory};

    ghost Value = { Config };

    ghost view = { λ d. d.config.value };

    ghost invariant = { λ d. IsDirectory d.config.value
        d.gateways.items d.homes.items d.servers.items };
}

// The home of each thread.
fn homes_of_threads(alloc: Global, threads: &[ThreadPart]) -> Result<Vec<BoxId>, OutOfMemory>
    ensures { IfOk result (λ homes. homes.items ≡ homes_of threads.now) }
{
    let mut homes = Vec::new(alloc);
    for thread in threads {
        homes.push(thread.home)?;
    }
    Ok(homes)
}

// The server of each box.
fn servers_of_boxes(alloc: Global, boxes: &[BoxPart]) -> Result<Vec<ThreadId>, OutOfMemory>
    ensures { IfOk result (λ servers. servers.items ≡ servers_of boxes.now) }
{
    let mut servers = Vec::new(alloc);
    for part in boxes {
        servers.push(part.server)?;
    }
    Ok(servers)
}

// Whether the box with this number is in the set.
#[tactic(auto, using(crate::proofs::SetLemmas::no_box_past))]
fn has_box(boxes: u8, b: BoxId) -> bool
    ensures { result ≡ register_words.has_box boxes b.0 }
{
    b.0 < 8 && (boxes >> b.0) % 2 == 1
}

impl Directory {
    /// The directory of a configuration.
    pub fn new(alloc: Global, cfg: &Config) -> Result<Directory, OutOfMemory>
        ensures { IfOk result (λ directory. directory ≡ cfg.now) }
    {
        let gateways = Vec::from_slice(alloc, cfg.gateways.as_slice())?;
        let homes = homes_of_threads(alloc, cfg.threads.as_slice())?;
        let servers = servers_of_boxes(alloc, cfg.boxes.as_slice())?;
        Ok(Directory {
            config: Snapshot::of(cfg),
            gateways,
            homes,
            servers,
        })
    }

    /// The gateway with this number, where the box may call by it.
    pub fn gateway_for(&self, b: BoxId, g: u32) -> Option<RpcGate>
        ensures { result ≡ call_words.gateway_for b.0 (slice_get self.now.gateways g) }
    {
        let gate = self.gateways.get(g as usize).copied()?;
        if has_box(gate.callers, b) {
            Some(gate)
        } else {
            None
        }
    }

    /// The home of a thread.
    pub fn home_of(&self, t: ThreadId) -> BoxId
        ensures { result ≡ call_words.home_of self.now t.0 }
    {
        self.homes.get(t.0 as usize).copied().unwrap_or(BoxId(0))
    }

    /// Whether the thread is the server of its box.
    pub fn is_server(&self, t: ThreadId) -> bool
        ensures { result ≡ server_words.is_server_thread self.now t.0 }
    {
        let Some(home) = self.homes.get(t.0 as usize).copied() else {
            return false;
        };
        match self.servers.get(home.0 as usize).copied() {
            Some(server) => t.0 == server.0,
            None => false,
        }
    }
}
