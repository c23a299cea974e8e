//! Whether two things that are stored whole are the same.

ghost use Rattle.std.specs.Prelude.{◌≡◌};
ghost use Rattle.cell_memory.specs.Wholes.{same_entry, same_whole};
ghost use Rattle.sym_expr.specs.Values.{same_point, same_target, same_value};

use crate::whole::{Entry, Whole};
use sym_expr::{Point, Target, Value};

fn same_point(a: &Point, b: &Point) -> bool
    ensures { result ≡ same_point a.now b.now }
{
    a == b
}

fn same_target(a: &Target, b: &Target) -> bool
    ensures { result ≡ same_target a.now b.now }
{
    a == b
}

fn same_value(a: &Value, b: &Value) -> bool
    ensures { result ≡ same_value a.now b.now }
{
    a == b
}

fn same_entry(a: &Entry, b: &Entry) -> bool
    ensures { result ≡ same_entry a.now b.now }
{
    b.size == a.size
        && b.scale == a.scale
        && same_point(&a.first, &b.first)
        && same_point(&a.second, &b.second)
}

/// Whether two wholes are the same.
pub fn same_whole(a: &Whole, b: &Whole) -> bool
    ensures { result ≡ same_whole a.now b.now }
{
    match (a, b) {
        (Whole::Value(v), Whole::Value(w)) => same_value(v, w),
        (Whole::Difference(p, q), Whole::Difference(r, s)) => same_target(p, r)
            && same_target(q, s),
        (Whole::Entry(e), Whole::Entry(f)) => same_entry(e, f),
        _ => false,
    }
}
