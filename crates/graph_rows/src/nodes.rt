ghost use Rattle.std.specs.Prelude.{◌≡◌, false};
ghost use Rattle.gt_model.specs.Linked.{is_bare_body};

use crate::find::{block_of, first_module, interval_of, section_of};
use crate::stop::Stop;
use crate::words::{identifier, number, word};
use gr_base::Text;
use gt_model::{Body, Payload, Symbol};
use node_arena::Graph;
use std::alloc::Global;
use uuid::Uuid;

/// `add_symbol ID NAME NUMBER`, to the first module.
pub fn add_symbol(alloc: Global, graph: &mut Graph, words: &[&str]) -> Result<(), Stop> {
    let module = first_module(graph)?;
    let symbol = Symbol {
        uuid: identifier(words, 1)?,
        name: Text::from_str(alloc, word(words, 2)?)?,
        at_end: false,
        payload: Payload::Value(number(words, 3)?),
    };
    graph.add_symbol(module, symbol)?;
    Ok(())
}

/// `add_interval SECTION ID`.
pub fn add_interval(graph: &mut Graph, words: &[&str]) -> Result<(), Stop> {
    let section = section_of(graph, &identifier(words, 1)?)?;
    graph.add_interval(section, identifier(words, 2)?)?;
    Ok(())
}

/// An empty code block.
fn empty_code(uuid: Uuid) -> Body
    ensures { is_bare_body result ≡ false }
{
    Body::Code {
        uuid,
        size: 0,
        decode_mode: 0,
    }
}

/// `add_block INTERVAL ID OFFSET`, of an empty code block.
pub fn add_block(graph: &mut Graph, words: &[&str]) -> Result<(), Stop> {
    let interval = interval_of(graph, &identifier(words, 1)?)?;
    let body = empty_code(identifier(words, 2)?);
    graph.add_block(interval, None, number(words, 3)?, body)?;
    Ok(())
}

/// `add_block_behind BLOCK INTERVAL ID OFFSET`.
pub fn add_block_behind(graph: &mut Graph, words: &[&str]) -> Result<(), Stop> {
    let other = block_of(graph, &identifier(words, 1)?)?;
    let interval = interval_of(graph, &identifier(words, 2)?)?;
    let body = empty_code(identifier(words, 3)?);
    graph.add_block(interval, Some(other), number(words, 4)?, body)?;
    Ok(())
}

/// Whether identifiers of equal bytes stand for the same in two graphs.
fn finds_alike(left: &Graph, right: &Graph) -> bool {
    for byte in 0..=u8::MAX {
        let id = Uuid::from_bytes([byte; 16]);
        if left.find(&id) != right.find(&id) {
            return false;
        }
    }
    true
}

/// `copy`: goes on with a copy of the graph, in which identifiers stand for the same.
pub fn copy(alloc: Global, graph: &mut Graph) -> Result<(), Stop> {
    let copied = graph.copy(alloc)?;
    if !finds_alike(graph, &copied) {
        return Err(Stop::Refused);
    }
    *graph = copied;
    Ok(())
}

/// `module PLACE ID`: the module at a place has an identifier.
pub fn has_module(graph: &Graph, words: &[&str]) -> Result<(), Stop> {
    let id = identifier(words, 2)?;
    match graph.module_at(number(words, 1)?) {
        Some(module) if graph.module(module).uuid == id => Ok(()),
        _ => Err(Stop::Refused),
    }
}
