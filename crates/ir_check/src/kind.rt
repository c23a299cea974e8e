ghost use Rattle.std.specs.Prelude.{◌≡◌, ◌<◌, length};
ghost use Rattle.node_arena.specs.Arenas.{module_at};
ghost use Rattle.node_arena.specs.Plain.{plain_module};
ghost use Rattle.ir_check.specs.Faults.{not_a64};

use crate::profile::Profile;
use node_arena::{CheckFault, Graph, ModuleId};

/// GTIRB's numbers of byte orders.
const NOT_STATED: i32 = 0;

const LITTLE_ENDIAN: i32 = 2;

/// Whether the module isn't of the profile's instruction set, or isn't little endian.
pub(crate) fn not_a64(graph: &Graph, module: ModuleId, profile: &Profile) -> Option<CheckFault>
    requires { «module».index < length graph.now.modules }
    ensures { result ≡ not_a64 profile.now (plain_module graph.now (module_at graph.now «module»)) }
{
    let node = graph.module(module);
    let order = node.byte_order;
    if node.isa == profile.isa && (order == NOT_STATED || order == LITTLE_ENDIAN) {
        None
    } else {
        Some(CheckFault::NotA64(node.isa, order))
    }
}
