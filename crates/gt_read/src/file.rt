ghost use Rattle.std.specs.Prelude.{◌≡◌, ◌<◌, IfOk, IfErr};
ghost use Rattle.std.specs.Option.{option_map};
ghost use Rattle.gt_model.specs.Ordered.{ordered};
ghost use Rattle.gt_model.specs.Typed.{typed};
ghost use Rattle.gt_read.specs.declared.fault.FormatFault.TheVariants.{Prefix};
ghost use Rattle.gt_read.specs.File.{file, format_fault, prefix_fault};
ghost use Rattle.gt_read.specs.Reading.{IsFault};

use crate::fault::FormatFault;
use crate::feeding::Feeder;
use crate::laws;
use gr_base::End;
use gt_model::Ir;
use std::alloc::Global;

/// The letters that begin a file; two bytes of any value and the version's byte follow.
const LETTERS: [u8; 5] = *b"GTIRB";

/// How many bytes stand before the body.
pub const BODY: usize = 8;

/// The first wrong or missing byte of the prefix.
pub fn prefix_fault(bytes: &[u8]) -> Option<u64>
    ensures { option_map Prefix result ≡ prefix_fault bytes.now }
{
    let mut at = 0;
    'letters: while at < LETTERS.len() {
        if at == bytes.len() || bytes[at] != LETTERS[at] {
            return Some(at as u64);
        }
        at += 1;
    }
    if bytes.len() < BODY {
        return Some(bytes.len() as u64);
    }
    None
}

/// Reads a file. Every record of every message in it is read, also of those whose meaning is forgotten.
pub fn read_file(alloc: Global, bytes: &[u8]) -> Result<Ir, End<FormatFault>>
    ensures found { IfOk result (λ ir. file bytes.now ir) }
    ensures fault { IfErr result (λ end. IsFault end (format_fault bytes.now)) }
    ensures typed { IfOk result typed }
    ensures order { IfOk result ordered }
    ensures version { IfOk result (λ ir. ir.version < 256) }
{
    laws::a_file_is_typed();
    let mut feeder = Feeder::new(alloc);
    match feeder.feed(bytes) {
        Ok(()) => feeder.finish(),
        Err(end) => Err(end),
    }
}
