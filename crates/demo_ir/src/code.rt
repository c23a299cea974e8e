ghost use Rattle.std.specs.Prelude.{◌≡◌, ◌<◌, ◌≤◌, ◌++◌, ◌^◌, IfOk, OnOk};
ghost use Rattle.std.specs.List.{flat_map, range_with_len};
ghost use Rattle.demo_ir.specs.Code.{constant, link_bytes, code_word, code_size, contents, exit_status};

use gr_base::Bytes;
use std::alloc::{AllocError, Global};

/// `movz x0, #0`
pub const CLEAR: u32 = 0xd280_0000;
/// `add x0, x0, #0`
pub const ADD: u32 = 0x9100_0000;
/// A branch whose operand an expression gives.
pub const BRANCH: u32 = 0x1400_0000;
/// `movz x8, #93`
pub const EXIT: u32 = 0xd280_0ba8;
/// `svc #0`
pub const CALL: u32 = 0xd400_0001;

/// What a block adds.
fn constant(seed: u64, k: u64) -> u32
    requires seed { seed < 2 ^ 32 }
    requires k { k < 100000 }
    ensures value { result ≡ constant seed k }
    ensures small { result < 4096 }
{
    ((seed + 7 * k) % 4096) as u32
}

#[tactic(auto, unfolding(crate::specs::Code::code_word))]
fn put_word(out: &mut Bytes, word: u32) -> Result<(), AllocError>
    ensures { OnOk result (out.new ≡ out.old ++ code_word word) }
{
    out.extend_from_slice(&word.to_le_bytes())?;
    Ok(())
}

/// The two words of a block that goes on to the next.
fn put_link(out: &mut Bytes, seed: u64, k: u64) -> Result<(), AllocError>
    requires seed { seed < 2 ^ 32 }
    requires k { k < 100000 }
    ensures { OnOk result (out.new ≡ out.old ++ link_bytes seed k) }
{
    put_word(out, ADD + 1024 * constant(seed, k))?;
    put_word(out, BRANCH)
}

#[tactic(auto, using(crate::proofs::Ranges::flat_map_more))]
fn put_links(out: &mut Bytes, seed: u64, blocks: u64) -> Result<(), AllocError>
    requires seed { seed < 2 ^ 32 }
    requires blocks { blocks ≤ 100000 }
    ensures { OnOk result (out.new ≡ out.old ++ flat_map (link_bytes seed) (range_with_len 0 blocks)) }
{
    for k in 0..blocks {
        put_link(out, seed, k)?;
    }
    Ok(())
}

/// The bytes of the whole program.
pub fn contents(alloc: Global, seed: u64, blocks: u64) -> Result<Bytes, AllocError>
    requires seed { seed < 2 ^ 32 }
    requires blocks { blocks ≤ 100000 }
    ensures { IfOk result (λ bytes. bytes ≡ contents seed blocks) }
{
    let mut out = Bytes::new(alloc);
    put_word(&mut out, CLEAR)?;
    put_links(&mut out, seed, blocks)?;
    put_word(&mut out, EXIT)?;
    put_word(&mut out, CALL)?;
    Ok(out)
}

/// How many bytes the program has.
pub fn demo_bytes(blocks: u64) -> u64
    requires { blocks ≤ 100000 }
    ensures { result ≡ code_size blocks }
{
    8 * blocks + 12
}

/// What the program exits with.
#[tactic(auto, using(crate::proofs::Ranges::sum_more))]
pub fn demo_exit(seed: u64, blocks: u64) -> u8
    requires seed { seed < 2 ^ 32 }
    requires blocks { blocks ≤ 100000 }
    ensures { result ≡ exit_status seed blocks }
{
    let mut sum = 0;
    for k in 0..blocks {
        sum += u64::from(constant(seed, k));
    }
    (sum % 256) as u8
}
