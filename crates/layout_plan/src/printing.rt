ghost use Rattle.std.specs.Prelude.{◌≡◌, ◌++◌, OnOk, IfOk};
ghost use Rattle.std.specs.String.{string_bytes};
ghost use Rattle.sym_expr.specs.Layouts.{IsStackSize};
ghost use Rattle.layout_plan.specs.Text.{place_line, stack_line, spelling};

use gr_base::Bytes;
use std::alloc::{AllocError, Global};
use sym_expr::{Layout, PlaceAt};
use uuid::Uuid;

fn place_line(alloc: Global, place: &PlaceAt) -> Result<String, AllocError>
    ensures { IfOk result (λ line. string_bytes line ≡ place_line place.now) }
{
    let mut buffer = Uuid::encode_buffer();
    let interval = place.interval.hyphenated().encode_lower(&mut buffer);
    format!(in alloc; "place {interval} 0x{:x}\n", place.at)
}

fn stack_line(alloc: Global, at: u64, size: u64) -> Result<String, AllocError>
    ensures { IfOk result (λ line. string_bytes line ≡ stack_line at size) }
{
    format!(in alloc; "stack 0x{at:x} 0x{size:x}\n")
}

/// The text of a layout: its places in order, and the stack.
pub fn print_layout(alloc: Global, layout: &Layout) -> Result<Bytes, AllocError>
    requires { IsStackSize layout.now.stack_size }
    ensures { IfOk result (λ text. text ≡ spelling layout.now) }
{
    let mut text = Bytes::new(alloc);
    for place in layout.places.as_slice() {
        let line = place_line(alloc, place)?;
        text.extend_from_slice(line.as_bytes())?;
    }
    let line = stack_line(alloc, layout.stack_at, layout.stack_size)?;
    text.extend_from_slice(line.as_bytes())?;
    Ok(text)
}
