//! Lines of items, and bytes as such lines.

ghost use Rattle.std.specs.Prelude.{◌≡◌, ◌++◌, ◌==◌, length, OnOk};
ghost use Rattle.std.specs.List.{list_all};
ghost use Rattle.asm_print.specs.Items.{hex_line, hex_lines, item_line, run, run_lines};
ghost use Rattle.asm_print.specs.Marking.{IsHere};

use crate::context::Here;
use gr_base::Bytes;
use std::alloc::{AllocError, Global};

/// The most bytes of a line.
const MOST: usize = 32;

/// A line of an item.
pub(crate) fn push_item(out: &mut Bytes, text: &[u8]) -> Result<(), AllocError>
    ensures { OnOk result (out.new ≡ out.old ++ item_line text.now) }
{
    out.extend_from_slice(b"    ")?;
    out.extend_from_slice(text)?;
    out.extend_from_slice(b"\n")
}

fn push_hex(alloc: Global, out: &mut Bytes, bytes: &[u8]) -> Result<(), AllocError>
    ensures { OnOk result (out.new ≡ out.old ++ hex_line bytes.now) }
{
    let mut text = Bytes::from_slice(alloc, b".hex ")?;
    let digits = hex::encode(alloc, bytes)?;
    text.extend_from_slice(digits.as_bytes())?;
    push_item(out, text.as_slice())
}

fn push_hex_lines(alloc: Global, out: &mut Bytes, bytes: &[u8]) -> Result<(), AllocError>
    ensures { OnOk result (out.new ≡ out.old ++ hex_lines (length bytes.now) bytes.now) }
{
    let mut rest = bytes;
    while !rest.is_empty() {
        let (line, behind) = rest.split_at(rest.len().min(MOST));
        push_hex(alloc, out, line)?;
        rest = behind;
    }
    Ok(())
}

fn are_zeros(bytes: &[u8]) -> bool
    ensures { result ≡ list_all (λ b. b == 0) bytes.now }
{
    bytes.iter().all(|byte| *byte == 0)
}

/// Bytes without a cut: zeros in one line.
fn push_run_lines(alloc: Global, out: &mut Bytes, bytes: &[u8]) -> Result<(), AllocError>
    ensures { OnOk result (out.new ≡ out.old ++ run_lines bytes.now) }
{
    if are_zeros(bytes) {
        let text = format!(in alloc; ".zero {}", bytes.len())?;
        push_item(out, text.as_bytes())
    } else {
        push_hex_lines(alloc, out, bytes)
    }
}

/// The same at an offset, if there are any.
pub(crate) fn push_run(
    alloc: Global,
    out: &mut Bytes,
    here: &Here<'_>,
    at: u128,
    bytes: &[u8],
) -> Result<(), AllocError>
    requires { IsHere here.now }
    ensures { OnOk result (out.new ≡ out.old ++ run here.now.context.now.module here.now.interval.now at bytes.now) }
{
    if bytes.is_empty() {
        return Ok(());
    }
    out.extend_from_slice(here.marks(at))?;
    push_run_lines(alloc, out, bytes)
}
