//! Differences of two targets in data.

ghost use Rattle.std.specs.Prelude.{◌≡◌, ◌-◌, ◌^◌, pos, negsuc, ◌<ℤ◌, ◌<◌, ◌≤◌, IsSome};
ghost use Rattle.sym_expr.specs.Differences.{diff_fit, difference_form, form_among, is_aligned, is_in_range, units_of};

use a64_inst::FitFault;

/// A form of a difference: of so many bytes, in units of the scale, of the values that it takes.
/// An entry is a form for distances in code alone, as compilers write them in tables of jumps.
#[derive(Clone, Copy, Debug, PartialEq, Eq)]
pub struct DifferenceForm {
    pub size: u64,
    pub scale: u64,
    pub least: i128,
    pub most: i128,
    pub is_entry: bool,
}

/// The forms of differences. One of eight bytes takes every value.
pub const DIFFERENCE_FORMS: [DifferenceForm; 7] = [
    DifferenceForm {
        size: 1,
        scale: 1,
        least: -128,
        most: 255,
        is_entry: true,
    },
    DifferenceForm {
        size: 1,
        scale: 4,
        least: -128 * 4,
        most: 255 * 4,
        is_entry: true,
    },
    DifferenceForm {
        size: 2,
        scale: 1,
        least: -32768,
        most: 65535,
        is_entry: true,
    },
    DifferenceForm {
        size: 2,
        scale: 4,
        least: -32768 * 4,
        most: 65535 * 4,
        is_entry: true,
    },
    DifferenceForm {
        size: 4,
        scale: 1,
        least: -(1 << 31),
        most: (1 << 31) - 1,
        is_entry: false,
    },
    DifferenceForm {
        size: 4,
        scale: 4,
        least: -(1 << 31) * 4,
        most: ((1 << 31) - 1) * 4,
        is_entry: true,
    },
    DifferenceForm {
        size: 8,
        scale: 1,
        least: -(1 << 65),
        most: 1 << 65,
        is_entry: false,
    },
];

impl DifferenceForm {
    ghost use Rattle.sym_expr.specs.Differences.{has};

    fn has(&self, size: u64, scale: u64) -> bool
        ensures { result ≡ has size scale self.now }
    {
        self.size == size && self.scale == scale
    }
}

/// The form of a difference of so many bytes and this scale, if there is one.
pub fn difference_form(size: u64, scale: u64) -> Option<DifferenceForm>
    ensures { result ≡ difference_form size scale }
{
    form_among(&DIFFERENCE_FORMS, size, scale)
}

fn form_among(forms: &[DifferenceForm], size: u64, scale: u64) -> Option<DifferenceForm>
    ensures { result ≡ form_among forms.now size scale }
{
    forms.iter().copied().find(|form| form.has(size, scale))
}

/// The bytes of a difference, as a number of so many bytes.
pub fn diff_fit(size: u8, scale: u8, diff: i128) -> Result<u64, FitFault>
    requires form { IsSome (difference_form size scale) }
    requires least { negsuc (2 ^ 65 - 1) <ℤ diff }
    requires most { diff <ℤ pos (2 ^ 65) }
    ensures { result ≡ diff_fit size scale diff }
{
    let form = difference_form(u64::from(size), u64::from(scale)).unwrap();
    if !is_in_range(form, diff) {
        Err(FitFault::Range(diff))
    } else if !is_aligned(form, diff) {
        Err(FitFault::Unaligned(diff))
    } else {
        Ok(units_of(form, diff))
    }
}

fn is_in_range(form: DifferenceForm, diff: i128) -> bool
    ensures { result ≡ is_in_range form diff }
{
    form.least <= diff && diff <= form.most
}

fn is_aligned(form: DifferenceForm, diff: i128) -> bool
    requires { 0 < form.scale }
    ensures { result ≡ is_aligned form diff }
{
    diff.rem_euclid(i128::from(form.scale)).unsigned_abs() == 0
}

fn units_of(form: DifferenceForm, diff: i128) -> u64
    requires scale { 0 < form.scale }
    requires size { form.size ≤ 8 }
    ensures { result ≡ units_of form diff }
{
    let all = 1u128 << (8 * form.size);
    let units = diff.div_euclid(i128::from(form.scale));
    units.rem_euclid(all as i128).unsigned_abs() as u64
}
