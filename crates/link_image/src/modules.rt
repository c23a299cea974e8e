//! The image of a module of a graph.

ghost use Rattle.std.specs.Prelude.{◌≡◌, ◌<◌, length, IfOk};
ghost use Rattle.bare_image.specs.Valid.{image_ok};
ghost use Rattle.module_program.specs.Graphs.{formed_at, program_at};
ghost use Rattle.sym_expr.specs.Images.{image, link_fault};
ghost use Rattle.sym_expr.specs.Layouts.{accepted};
ghost use Rattle.sym_expr.specs.Placing.{shape_of};
ghost use Rattle.link_image.specs.Answers.{Tells};

use crate::linking::link_program;
use bare_image::Image;
use gr_base::End;
use module_program::unpatched_program;
use node_arena::{Graph, ModuleId};
use std::alloc::Global;
use sym_expr::{Layout, LinkFault};

/// The image of a module's program under a layout that suits it.
pub fn link(
    alloc: Global,
    graph: &Graph,
    module: ModuleId,
    layout: &Layout,
) -> Result<Image, End<LinkFault>>
    requires live { «module».index < length graph.now.modules }
    requires formed { formed_at graph.now «module» }
    requires accepted { accepted layout.now (shape_of (program_at graph.now «module»)) }
    ensures image { IfOk result (λ made. made ≡ image (program_at graph.now «module») layout.now) }
    ensures fault { Tells result (link_fault (program_at graph.now «module») layout.now) }
    ensures ok { IfOk result image_ok }
{
    let program = unpatched_program(alloc, graph, module)?;
    link_program(alloc, &program, layout)
}
