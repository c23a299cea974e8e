ghost use Rattle.std.specs.Prelude.{◌≡◌, ◌++◌, ℤ, Option, List, ℕ, OnOk};
ghost use Rattle.std.specs.List.{AllByRecursion};
ghost use Rattle.gt_model.specs.Schema.{Unsigned64, addr_const_rows, addr_addr_rows, expr_rows};
ghost use Rattle.gt_model.specs.Views.{addr_const_fields, addr_addr_fields, addr_const_value, addr_addr_value, expr_value};
ghost use Rattle.gt_model.specs.declared.exprs.ExprValue.TheVariants.{AddrConst, AddrAddr};
ghost use Rattle.gt_model.specs.Typed.{IsI32, typed_value, typed_expr};
ghost use Rattle.gt_write.specs.Spelling.{plain_record, run_record, if_there, spelling};

use crate::messages::Spelled;
use crate::records::{put_number, put_optional_id, put_packed, put_run, put_signed};
use gt_model::{Expr, ExprValue};
use std::alloc::{AllocError, Global};
use uuid::Uuid;

fn put_addr_const(out: &mut Vec<u8>, offset: i64, symbol: Option<Uuid>) -> Result<(), AllocError>
    ensures records { OnOk result (out.new.items ≡ out.old.items ++ spelling addr_const_rows (addr_const_fields offset symbol)) }
    ensures typed { OnOk result (typed_value (AddrConst offset symbol)) }
{
    put_signed(out, 1, offset)?;
    put_optional_id(out, 2, symbol)?;
    Ok(())
}

fn put_addr_addr(
    out: &mut Vec<u8>,
    scale: i64,
    offset: i64,
    first: Option<Uuid>,
    second: Option<Uuid>,
) -> Result<(), AllocError>
    ensures records { OnOk result (out.new.items
        ≡ out.old.items ++ spelling addr_addr_rows (addr_addr_fields scale offset first second)) }
    ensures typed { OnOk result (typed_value (AddrAddr scale offset first second)) }
{
    put_signed(out, 1, scale)?;
    put_signed(out, 2, offset)?;
    put_optional_id(out, 3, first)?;
    put_optional_id(out, 4, second)?;
    Ok(())
}

/// What an expression stands for, if the file says it.
fn put_value(alloc: Global, out: &mut Vec<u8>, value: ExprValue) -> Result<(), AllocError>
    ensures records { OnOk result (out.new.items
        ≡ out.old.items ++ (if_there (λ v. run_record 2 (spelling addr_const_rows v)) (addr_const_value value)
        ++ if_there (λ v. run_record 3 (spelling addr_addr_rows v)) (addr_addr_value value))) }
    ensures typed { OnOk result (typed_value value) }
{
    let mut payload = Vec::new(alloc);
    match value {
        ExprValue::Nothing => Ok(()),
        ExprValue::AddrConst { offset, symbol } => {
            put_addr_const(&mut payload, offset, symbol)?;
            put_run(out, 2, payload.as_slice())?;
            Ok(())
        }
        ExprValue::AddrAddr {
            scale,
            offset,
            first,
            second,
        } => {
            put_addr_addr(&mut payload, scale, offset, first, second)?;
            put_run(out, 3, payload.as_slice())?;
            Ok(())
        }
    }
}

/// An expression without its offset.
fn put_expr(alloc: Global, out: &mut Vec<u8>, expr: &Expr) -> Result<(), AllocError>
    ensures records { OnOk result (out.new.items ≡ out.old.items ++ spelling expr_rows (expr_value expr.now)) }
    ensures value { OnOk result (typed_value expr.now.value) }
    ensures flags { OnOk result (AllByRecursion IsI32 expr.now.flags) }
{
    put_value(alloc, out, expr.value)?;
    put_packed(alloc, out, 4, &expr.flags)?;
    Ok(())
}

/// The entry of a map from offsets to expressions.
impl Spelled for Expr {
    ghost spelled = { λ e. plain_record 1 Unsigned64 e.at ++ run_record 2 (spelling expr_rows (expr_value e)) };

    ghost typed = { typed_expr };

    fn put(&self, alloc: Global, out: &mut Vec<u8>) -> Result<(), AllocError> {
        put_number(out, 1, self.at)?;
        let mut expr = Vec::new(alloc);
        put_expr(alloc, &mut expr, self)?;
        put_run(out, 2, expr.as_slice())?;
        Ok(())
    }
}
