//! Laws of the definitions that contracts cite: each function is its contract.

ghost use Rattle.std.specs.Prelude.{◌<◌, ◌^◌, length};
ghost use Rattle.gt_model.specs.declared.ir.Ir.{Ir};
ghost use Rattle.gt_model.specs.Ordered.{ordered};
ghost use Rattle.gt_model.specs.Typed.{typed};
ghost use Rattle.gt_read.specs.File.{file};
ghost use Rattle.gt_write.specs.Canonical.{canonical};
ghost use Rattle.gt_write.specs.Lengths.{every_length_fits};

/// The canonical spelling of an IR means the IR, where every length in it fits; and these do where
/// that of the whole does.
pub fn reads_back()
    ensures means { (ir : Ir) → typed ir → ordered ir → every_length_fits ir → file (canonical ir) ir }
    ensures fits { (ir : Ir) → length (canonical ir) < 2 ^ 64 → every_length_fits ir }
{
    pb_wire::laws::short_spellings();
    pb_wire::laws::shortest_is_varint();
    gt_read::laws::records_one_by_one();
    gt_read::laws::packed_runs_are_varints();
}
