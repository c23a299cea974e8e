//! What follows from the definitions alone.

ghost use Rattle.std.specs.Prelude.{◌≡◌, All, None};
ghost use Rattle.bare_image.specs.Valid.{image_ok};
ghost use Rattle.sym_expr.specs.declared.layout.Layout.{Layout};
ghost use Rattle.sym_expr.specs.declared.program.Program.{Program};
ghost use Rattle.sym_expr.specs.Images.{image, link_fault};
ghost use Rattle.sym_expr.specs.Layouts.{accepted};
ghost use Rattle.sym_expr.specs.Placing.{shape_of};
ghost use Rattle.sym_expr.specs.WellMade.{well_made};
ghost use Rattle.link_image.specs.Ready.{HasBytes};

use layout_plan::laws::places_are_least;

/// The image of a program without a fault can be written, where its segments hold bytes.
pub fn images_are_ok()
    ensures { (g : Program) (l : Layout) → well_made g → accepted l (shape_of g) → link_fault g l ≡ None → All HasBytes (image g l).segments → image_ok (image g l) }
{
    places_are_least();
}
