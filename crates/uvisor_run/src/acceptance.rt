ghost use Rattle.std.specs.Prelude.{◌≡◌, None, Ok, IfErr, IfOk};
ghost use Rattle.toml.specs.View.{table_view};
ghost use Rattle.flat_model.specs.First.{IsCause, unless_refused};
ghost use Rattle.flat_model.specs.Sound.{IsSound};
ghost use Rattle.board_map.specs.Shape.{shape_refusal};
ghost use Rattle.box_config.specs.Texts.{devices_of, gates_of, script_of};
ghost use Rattle.acl_resolver.specs.Resolvable.{IsResolvable};
ghost use Rattle.acl_resolver.specs.Resolve.{parts_of};
ghost use Rattle.uvisor_run.specs.Accept.{config_of, config_of_document, config_of_parts, document_of, or_not_toml};

use acl_resolver::resolve_texts;
use board_map::{check_shape, read_board};
use box_config::{read_boxes, read_devices, read_gates, script_texts};
use flat_model::{Board, BoxText, Config, ConfigErr, OutOfMemory, Refused};
use std::alloc::Global;
use toml::Table;

// The most bytes that an input may have.
pub(crate) const INPUT_LIMIT: usize = 4_194_304;

// The table of a document.
#[tactic(auto, using(crate::proofs::Documents::document_read, crate::proofs::Documents::document_unread))]
fn read_document(alloc: Global, bytes: &[u8]) -> Result<Table, ConfigErr>
    ensures ok { IfOk result (λ table.
        or_not_toml (document_of bytes.now) ≡ Ok (table_view table)) }
    ensures cause { IfErr result (IsCause (or_not_toml (document_of bytes.now))) }
{
    match toml::table_from_slice(alloc, bytes) {
        Ok(table) => Ok(table),
        Err(error) => {
            if error.is_memory() {
                Err(ConfigErr::Memory)
            } else {
                Err(ConfigErr::Refused(Refused::NotToml))
            }
        }
    }
}

// Want of memory while a part is read.
fn or_memory<T>(read: Result<T, OutOfMemory>) -> Result<T, ConfigErr>
    ensures ok { IfOk result (λ value. read ≡ Ok value) }
    ensures err { IfErr result (λ error. error ≡ ConfigErr.Memory) }
{
    read.map_err(|_| ConfigErr::Memory)
}

// Whether the shape of a document is not refused.
#[tactic(auto, using(crate::proofs::Documents::no_refusal, crate::proofs::Documents::same_refusal))]
fn keep_shape(document: &Table) -> Result<(), ConfigErr>
    ensures ok { IfOk result (λ kept. shape_refusal (table_view document.now) ≡ None) }
    ensures cause { IfErr result (IsCause
        (unless_refused (shape_refusal (table_view document.now)) (table_view document.now))) }
{
    match check_shape(document) {
        Ok(()) => Ok(()),
        Err(refused) => Err(ConfigErr::Refused(refused)),
    }
}

// The configuration of a document with this board and these boxes.
fn resolve_parts(
    alloc: Global,
    document: &Table,
    board: Board,
    boxes: Vec<BoxText>,
) -> Result<Config, ConfigErr>
    requires { IsResolvable (parts_of board boxes.items (gates_of (table_view document.now))
        (devices_of (table_view document.now)) (script_of (table_view document.now))) }

    ensures ok { IfOk result (λ config.
        config_of_parts (table_view document.now) board boxes.items ≡ Ok config) }
    ensures sound { IfOk result IsSound }
    ensures cause { IfErr result (IsCause
        (config_of_parts (table_view document.now) board boxes.items)) }
{
    let gates = or_memory(read_gates(alloc, document))?;
    let devices = or_memory(read_devices(alloc, document))?;
    let script = or_memory(script_texts(alloc, document))?;
    resolve_texts(alloc, board, boxes, gates, devices, script.as_slice())
}

// The configuration of a document.
#[tactic(auto, using(acl_resolver::proofs::Readable::resolvable), unfolding(crate::specs::Accept::config_of_document))]
fn config_of_document(alloc: Global, document: &Table) -> Result<Config, ConfigErr>
    ensures ok { IfOk result (λ config. config_of_document (table_view document.now) ≡ Ok config) }
    ensures sound { IfOk result IsSound }
    ensures cause { IfErr result (IsCause (config_of_document (table_view document.now))) }
{
    keep_shape(document)?;
    let board = read_board(alloc, document)?;
    let boxes = read_boxes(alloc, document)?;
    resolve_parts(alloc, document, board, boxes)
}

/// A document, and the configuration that it is.
#[derive(Drop)]
pub(crate) struct Accepted {
    pub document: Table,
    pub config: Config,
}

/// The configuration of an input with its document, or its first refusal.
#[tactic(auto, unfolding(crate::specs::Accept::config_of))]
pub(crate) fn accept_document(alloc: Global, bytes: &[u8]) -> Result<Accepted, ConfigErr>
    ensures ok { IfOk result (λ accepted. config_of bytes.now ≡ Ok accepted.config) }
    ensures sound { IfOk result (λ accepted. IsSound accepted.config) }
    ensures cause { IfErr result (IsCause (config_of bytes.now)) }
{
    if bytes.len() > INPUT_LIMIT {
        return Err(ConfigErr::Refused(Refused::TooLong));
    }
    let document = read_document(alloc, bytes)?;
    let config = config_of_document(alloc, &document)?;
    Ok(Accepted { document, config })
}

/// The configuration of an input, or its first refusal (docs/INPUT.md). Every configuration is
/// sound.
pub fn accept(alloc: Global, bytes: &[u8]) -> Result<Config, ConfigErr>
    ensures ok { IfOk result (λ config. config_of bytes.now ≡ Ok config) }
    ensures sound { IfOk result IsSound }
    ensures cause { IfErr result (IsCause (config_of bytes.now)) }
{
    let Accepted {
        document: _,
        config,
    } = accept_document(alloc, bytes)?;
    Ok(config)
}
