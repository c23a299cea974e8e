ghost use Rattle.std.specs.Prelude.{◌≡◌, IfOk};
ghost use Rattle.demo_ir.specs.Identifiers.{identifier, numbered};

use std::alloc::{AllocError, Global};
use uuid::Uuid;

/// The identifier that is derived from a text.
#[tactic(auto, unfolding(crate::specs::Identifiers::identifier))]
pub fn identifier(text: &[u8]) -> Uuid
    ensures { result ≡ identifier text.now }
{
    Uuid::new_v5(&Uuid::nil(), text)
}

/// The identifier of a node of a kind, which have numbers from 0.
pub fn numbered(alloc: Global, kind: &str, k: u64) -> Result<Uuid, AllocError>
    ensures { IfOk result (λ id. id ≡ numbered kind.now k) }
{
    let text = format!(in alloc; "demo/{kind}/{k}")?;
    Ok(identifier(text.as_bytes()))
}
