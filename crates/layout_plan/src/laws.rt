//! What follows from the definitions alone.

ghost use Rattle.std.specs.Prelude.{◌≡◌, ◌↔◌, ◌≤◌, ◌<◌, ◌+◌, ◌%◌, ◌^◌, ℕ, List, None};
ghost use Rattle.sym_expr.specs.declared.layout.Layout.{Layout};
ghost use Rattle.sym_expr.specs.declared.shape.Shape.{Shape};
ghost use Rattle.sym_expr.specs.Shapes.{IsShape};
ghost use Rattle.sym_expr.specs.Layouts.{accepted, default_of, least_from, typed_layout, IsStackSize};
ghost use Rattle.sym_expr.specs.declared.program.Program.{Program};
ghost use Rattle.sym_expr.specs.Placing.{shape_of};
ghost use Rattle.sym_expr.specs.WellMade.{well_made};
ghost use Rattle.layout_plan.specs.declared.line.LayoutLine.{LayoutLine};
ghost use Rattle.layout_plan.specs.Faults.{layout_fault};
ghost use Rattle.layout_plan.specs.Text.{Says, layout_text, text_fault, spelling};

/// A layout has no fault exactly where it is accepted.
pub fn accepted_without_fault()
    ensures { (layout : Layout) (shape : Shape) → IsShape shape → IsStackSize layout.stack_size → (layout_fault layout shape ≡ None) ↔ accepted layout shape }
{}

/// The default layout is accepted where its stack ends at 2 ^ 47 at most.
pub fn default_is_accepted()
    ensures { (shape : Shape) → IsShape shape → (default_of shape).stack_at + (default_of shape).stack_size ≤ 2 ^ 47 → accepted (default_of shape) shape }
{}

/// An interval of the default layout goes to the least place behind the one before.
pub fn places_are_least()
    ensures from { (n m r : ℕ) → r < m → n ≤ least_from n m r }
    ensures remainder { (n m r : ℕ) → r < m → least_from n m r % m ≡ r }
    ensures least { (n m r x : ℕ) → r < m → n ≤ x → x % m ≡ r → least_from n m r ≤ x }
{}

/// A line of layout text says one thing.
pub fn one_saying()
    ensures { (line : List ℕ) (a b : LayoutLine) → Says line a → Says line b → a ≡ b }
{
    asm_read::laws::one_split();
    asm_read::laws::one_number();
}

/// A text gives one layout or has one fault, never both.
pub fn one_layout_or_fault()
    ensures layout { (text : List ℕ) (a b : Layout) → layout_text text a → layout_text text b → a ≡ b }
    ensures fault { (text : List ℕ) (a b : ℕ) → text_fault text a → text_fault text b → a ≡ b }
    ensures apart { (text : List ℕ) (layout : Layout) (number : ℕ) → layout_text text layout → text_fault text number → ⊥ }
{
    one_saying();
}

/// The text of a layout gives that layout.
pub fn printed_reads_back()
    ensures { (layout : Layout) → typed_layout layout → IsStackSize layout.stack_size → layout_text (spelling layout) layout }
{}

/// What the layout of a well-made program must find room for is a shape.
pub fn shapes_of_programs()
    ensures { (g : Program) → well_made g → IsShape (shape_of g) }
{}
