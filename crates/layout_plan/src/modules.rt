//! The shape of a module of a graph.

ghost use Rattle.std.specs.Prelude.{◌≡◌, ◌<◌, length, IfOk};
ghost use Rattle.module_program.specs.Graphs.{formed_at, program_at};
ghost use Rattle.sym_expr.specs.Placing.{shape_of};
ghost use Rattle.sym_expr.specs.Shapes.{IsShape};

use crate::shapes::program_shape;
use module_program::unpatched_program;
use node_arena::{Graph, ModuleId};
use std::alloc::{AllocError, Global};
use sym_expr::Shape;

/// What a layout of a module's program must find room for.
pub fn shape(alloc: Global, graph: &Graph, module: ModuleId) -> Result<Shape, AllocError>
    requires live { «module».index < length graph.now.modules }
    requires formed { formed_at graph.now «module» }
    ensures value { IfOk result (λ shape. shape ≡ shape_of (program_at graph.now «module»)) }
    ensures shape { IfOk result IsShape }
{
    let program = unpatched_program(alloc, graph, module)?;
    program_shape(alloc, &program)
}
