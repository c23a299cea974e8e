ghost use Rattle.std.specs.Prelude.{◌≡◌, ◌≤◌, ◌++◌, ◌∷◌, [], map, IfOk, OnOk, codes};
ghost use Rattle.std.specs.List.{range_with_len};
ghost use Rattle.std.specs.Fmt.{decimal};
ghost use Rattle.demo_ir.specs.Demo.{link_block, blocks_of, symbol, symbols_of, branch, branches_of};

use crate::identifiers::numbered;
use gr_base::{Seq, Text};
use gt_model::{Block, Body, Expr, ExprValue, Payload, Symbol};
use std::alloc::{AllocError, Global};

/// The block behind the first that goes on to the next.
fn push_link(alloc: Global, made: &mut Vec<Block>, k: u64) -> Result<(), AllocError>
    requires { k ≤ 100000 }
    ensures { OnOk result (made.new.items ≡ made.old.items ++ link_block k ∷ []) }
{
    let uuid = numbered(alloc, "block", k + 1)?;
    made.push(Block {
        offset: 8 * k + 4,
        body: Body::Code {
            uuid,
            size: 8,
            decode_mode: 0,
        },
    })?;
    Ok(())
}

fn push_links(alloc: Global, made: &mut Vec<Block>, blocks: u64) -> Result<(), AllocError>
    requires { blocks ≤ 100000 }
    ensures { OnOk result (made.new.items ≡ made.old.items ++ map link_block (range_with_len 0 blocks)) }
{
    for k in 0..blocks {
        push_link(alloc, made, k)?;
    }
    Ok(())
}

/// The blocks of the program, in order.
pub fn blocks_of(alloc: Global, blocks: u64) -> Result<Seq<Block>, AllocError>
    requires { blocks ≤ 100000 }
    ensures { IfOk result (λ made. made ≡ blocks_of blocks) }
{
    let uuid = numbered(alloc, "block", 0)?;
    let first = Body::Code {
        uuid,
        size: 4,
        decode_mode: 0,
    };
    let mut made = Vec::new(alloc);
    made.push(Block {
        offset: 0,
        body: first,
    })?;
    push_links(alloc, &mut made, blocks)?;
    push_link(alloc, &mut made, blocks)?;
    Ok(Seq::from_vec(made))
}

fn symbol_name(alloc: Global, k: u64) -> Result<Text, AllocError>
    ensures { IfOk result (λ name. name ≡ codes "b" ++ decimal k) }
{
    let name = format!(in alloc; "b{k}")?;
    Ok(Text::from_string(name))
}

/// The symbol on the block of an ordinal, behind the first.
fn symbol(alloc: Global, k: u64) -> Result<Symbol, AllocError>
    requires { k ≤ 100000 }
    ensures { IfOk result (λ made. made ≡ symbol k) }
{
    Ok(Symbol {
        uuid: numbered(alloc, "symbol", k)?,
        name: symbol_name(alloc, k)?,
        at_end: false,
        payload: Payload::Referent(numbered(alloc, "block", k + 1)?),
    })
}

#[tactic(auto, using(crate::proofs::Ranges::map_more))]
pub fn symbols_of(alloc: Global, blocks: u64) -> Result<Seq<Symbol>, AllocError>
    requires { blocks ≤ 100000 }
    ensures { IfOk result (λ made. made ≡ symbols_of blocks) }
{
    let mut made = Seq::new(alloc);
    for k in 0..blocks + 1 {
        made.push(symbol(alloc, k)?)?;
    }
    Ok(made)
}

/// What the branch of a block names.
fn branch(alloc: Global, k: u64) -> Result<Expr, AllocError>
    requires { k ≤ 100000 }
    ensures { IfOk result (λ made. made ≡ branch k) }
{
    Ok(Expr {
        at: 8 * k + 8,
        value: ExprValue::AddrConst {
            offset: 0,
            symbol: Some(numbered(alloc, "symbol", k + 1)?),
        },
        flags: Seq::new(alloc),
    })
}

#[tactic(auto, using(crate::proofs::Ranges::map_more))]
pub fn branches_of(alloc: Global, blocks: u64) -> Result<Seq<Expr>, AllocError>
    requires { blocks ≤ 100000 }
    ensures { IfOk result (λ made. made ≡ branches_of blocks) }
{
    let mut made = Seq::new(alloc);
    for k in 0..blocks {
        made.push(branch(alloc, k)?)?;
    }
    Ok(made)
}
