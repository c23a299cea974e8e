//! The number functions that operations name.

ghost use Rattle.std.specs.Prelude.{◌≡◌, IsTrue};
ghost use Rattle.a64_inst.specs.Numbers.{bits_of, unary_value, binary_value};
ghost use Rattle.a64_ops.specs.Sound.{is_sound_unary, is_sound_binary};

use a64_inst::{Binary, Sum, Unary, Width};
use a64_numbers::fields::{extract, field, with_field};
use a64_numbers::numbers::{inserted, inverse, logical, low};
use a64_numbers::products::{high_product, long_product, product, two_sources};
use a64_numbers::shifts::{extended_and_shifted, shifted};
use a64_numbers::sums::sum;
use a64_numbers::turned::one_source;

/// What a function of one number gives.
pub fn unary(function: Unary, width: Width, value: u64) -> u64
    requires { IsTrue (is_sound_unary function width) }
    ensures { result ≡ unary_value function (bits_of width) value }
{
    match function {
        Unary::Insert { bits, at } => inserted(width, value, bits, at / 16),
        Unary::Shift { kind, amount } => shifted(width, kind, value, amount),
        Unary::Extend { option, amount } => extended_and_shifted(width, option, amount, value),
        Unary::Bitfield { signed, immr, imms } => field(signed, width, immr, imms, value),
        Unary::Addend(Sum::Add) => low(width, value),
        Unary::Addend(Sum::Subtract) => inverse(width, value),
        Unary::OneSource(opcode) => one_source(width, opcode, value),
        Unary::Bit(place) => (value >> place) % 2,
    }
}

/// What a function of two numbers gives.
pub fn binary(function: Binary, width: Width, first: u64, second: u64) -> u64
    requires { IsTrue (is_sound_binary function width) }
    ensures { result ≡ binary_value function (bits_of width) first second }
{
    match function {
        Binary::Logic { opc, inverted } => logical(width, opc, inverted, first, second),
        Binary::TwoSources(opcode) => two_sources(width, opcode, first, second),
        Binary::BitfieldInto { immr, imms } => with_field(width, immr, imms, first, second),
        Binary::Extract(place) => extract(width, place, first, second),
        Binary::Product => product(width, first, second),
        Binary::LongProduct { signed } => long_product(signed, first, second),
        Binary::HighProduct { signed } => high_product(signed, first, second),
        Binary::PlainSum(how) => sum(how, width, first, second),
    }
}
