//! Whether two things that values name are the same.

ghost use Rattle.std.specs.Prelude.{◌≡◌};
ghost use Rattle.sym_expr.specs.Values.{same_object, same_point, same_target, same_value};

use sym_expr::{Object, Point, Target, Value};

/// Whether two objects are one.
pub fn same_object(a: &Object, b: &Object) -> bool
    ensures { result ≡ same_object a.now b.now }
{
    a == b
}

/// Whether two points are one.
pub fn same_point(a: &Point, b: &Point) -> bool
    ensures { result ≡ same_point a.now b.now }
{
    a == b
}

/// Whether two targets are one.
pub fn same_target(a: &Target, b: &Target) -> bool
    ensures { result ≡ same_target a.now b.now }
{
    a == b
}

/// Whether two values are one.
pub fn same_value(a: &Value, b: &Value) -> bool
    ensures { result ≡ same_value a.now b.now }
{
    a == b
}
