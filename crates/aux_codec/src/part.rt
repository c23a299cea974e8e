ghost use Rattle.std.specs.Prelude.{◌≡◌, slice_get};
ghost use Rattle.std.specs.Option.{option_copied};

use aux_types::AuxType;

/// The type of a variant's part, if there is one of this index.
pub fn part(types: &[AuxType], index: u64) -> Option<&AuxType>
    ensures { option_copied result ≡ slice_get types.now index }
{
    types.get(index as usize)
}
