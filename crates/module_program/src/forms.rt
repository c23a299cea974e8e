//! Forms of differences, and what stands for a difference in one.

ghost use Rattle.std.specs.Prelude.{◌≡◌, ◌≤◌, IfSome};
ghost use Rattle.sym_expr.specs.Differences.{form_of};
ghost use Rattle.sym_expr.specs.Program.{difference_in};

use sym_expr::{DifferenceForm, Filling, Target, difference_form};

/// The form of a difference of so many bytes and this scale, if there is one.
pub(crate) fn form_of(size: u64, scale: i64) -> Option<DifferenceForm>
    ensures value { result ≡ form_of size scale }
    ensures small { IfSome result (λ f. (f.size ≤ 8) × (f.scale ≤ 4)) }
{
    if scale < 0 {
        None
    } else {
        difference_form(size, scale as u64)
    }
}

/// The first target less the second, in a form.
pub(crate) fn difference_in(first: Target, second: Target, form: DifferenceForm) -> Filling
    requires size { form.size ≤ 8 }
    requires scale { form.scale ≤ 4 }
    ensures { result ≡ difference_in first second form }
{
    let size = form.size as u8;
    if form.is_entry {
        Filling::Entry(size, form.scale as u8, first, second)
    } else {
        Filling::Difference(size, first, second)
    }
}
