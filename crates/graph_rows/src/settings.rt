use crate::find::{block_of, first_module, interval_of, module_around, symbol_of};
use crate::stop::Stop;
use crate::words::{bytes, identifier, number, word};
use gr_base::{Bytes, Seq};
use node_arena::Graph;
use std::alloc::Global;

/// `set_block BLOCK OFFSET SIZE`.
pub fn set_block(graph: &mut Graph, words: &[&str]) -> Result<(), Stop> {
    let block = block_of(graph, &identifier(words, 1)?)?;
    graph.set_block(block, number(words, 2)?, number(words, 3)?);
    Ok(())
}

/// `set_contents INTERVAL BYTES SIZE`.
pub fn set_contents(alloc: Global, graph: &mut Graph, words: &[&str]) -> Result<(), Stop> {
    let interval = interval_of(graph, &identifier(words, 1)?)?;
    let contents = Bytes::from_vec(bytes(alloc, words, 2)?);
    graph.set_contents(interval, contents, number(words, 3)?);
    Ok(())
}

/// `set_no_exprs INTERVAL`.
pub fn set_no_exprs(alloc: Global, graph: &mut Graph, words: &[&str]) -> Result<(), Stop> {
    let interval = interval_of(graph, &identifier(words, 1)?)?;
    graph.set_exprs(interval, Seq::new(alloc));
    Ok(())
}

/// `set_table NAME BYTES`, of the first module.
pub fn set_table(alloc: Global, graph: &mut Graph, words: &[&str]) -> Result<(), Stop> {
    let module = first_module(graph)?;
    let contents = Bytes::from_vec(bytes(alloc, words, 2)?);
    graph.set_table(module, word(words, 1)?, contents);
    Ok(())
}

/// `set_referent SYMBOL BLOCK`, where both are of one module.
pub fn set_referent(graph: &mut Graph, words: &[&str]) -> Result<(), Stop> {
    let symbol = symbol_of(graph, &identifier(words, 1)?)?;
    let block = block_of(graph, &identifier(words, 2)?)?;
    if module_around(graph, block) != graph.symbol(symbol).module {
        return Err(Stop::Refused);
    }
    graph.set_referent(symbol, block);
    Ok(())
}
