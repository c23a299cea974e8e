//! Operations that several rows have.

ghost use Rattle.std.specs.Prelude.{◌≡◌, ◌*◌, ◌≤◌, ◌<◌, ◌^◌, [], ◌∷◌, ◌++◌, length, true, false};
ghost use Rattle.a64_inst.specs.Meaning as meaning;
ghost use Rattle.a64_inst.specs.Numbers.{sign_extended};

use crate::list::OpList;
use a64_inst::{Binary, Op, Sum, Unary, Width};
use a64_numbers::numbers;

pub fn read(register: u8) -> Op
    ensures { result ≡ Op.Read false register }
{
    Op::Read {
        stack: false,
        register,
    }
}

pub fn read_or_stack(register: u8) -> Op
    ensures { result ≡ Op.Read true register }
{
    Op::Read {
        stack: true,
        register,
    }
}

pub fn write(register: u8, value: u8) -> Op
    ensures { result ≡ Op.Write false register value }
{
    Op::Write {
        stack: false,
        register,
        value,
    }
}

pub fn write_or_stack(register: u8, value: u8) -> Op
    ensures { result ≡ Op.Write true register value }
{
    Op::Write {
        stack: true,
        register,
        value,
    }
}

/// The sum of value 0 and another, to a register.
fn summed(width: Width, sum: Sum, second: u8, count: u8, rd: u8) -> [Op; 3]
    ensures { result ≡ meaning.summed width sum second count rd }
{
    let value = Op::Sum {
        sum,
        width,
        first: 0,
        second,
    };
    [Op::Keep(rd), value, write(rd, count)]
}

/// The place of the instruction plus a signed number of words of so many bits in bytes.
pub fn target(bits: u8, words: u32) -> Op
    requires some { 1 ≤ bits }
    requires most { bits ≤ 64 }
    ensures { result ≡ Op.Target false (sign_extended bits 64 (words * 4)) }
{
    Op::Target {
        page: false,
        offset: numbers::sign_extended(Width::X, bits, u64::from(words) * 4),
    }
}

/// The bytes that a size counts.
pub fn power(size: u8) -> u8
    requires { size < 4 }
    ensures { result ≡ 2 ^ size }
{
    match size {
        0 => 1,
        1 => 2,
        2 => 4,
        _ => 8,
    }
}

// The bytes of each register of a pair, as a power of 2.
fn pair_size(opc: u8) -> u8
    ensures size { result ≡ meaning.pair_size opc }
    ensures most { result < 4 }
{
    if opc == 2 { 3 } else { 2 }
}

impl OpList {
    /// That sum, and where s is 1 its flags.
    pub fn sum(&mut self, width: Width, s: u8, sum: Sum, second: u8, count: u8, rd: u8)
        requires { length self.old ≤ 8 }
        ensures { self.new ≡ self.old ++ meaning.flagged_sum width s sum second count rd }
    {
        if s == 1 {
            self.extend(&[Op::FlagsOfSum {
                sum,
                width,
                first: 0,
                second,
            }]);
        }
        self.extend(&summed(width, sum, second, count, rd));
    }

    /// The same, where without flags the register may be the stack pointer.
    pub fn sum_or_stack(&mut self, width: Width, s: u8, sum: Sum, second: u8, count: u8, rd: u8)
        requires { length self.old ≤ 8 }
        ensures { self.new ≡ self.old ++ meaning.flagged_sum_or_stack width s sum second count rd }
    {
        if s == 1 {
            self.sum(width, s, sum, second, count, rd);
        } else {
            let value = Op::Sum {
                sum,
                width,
                first: 0,
                second,
            };
            self.extend(&[value, write_or_stack(rd, count)]);
        }
    }

    /// The sum of value 0, value 1 or its inverse, and the carry in value 2, to a register.
    pub fn carried_sum(&mut self, width: Width, sum: Sum, rd: u8)
        requires { length self.old ≤ 7 }
        ensures { self.new ≡ self.old ++ meaning.carried_sum_to width sum rd }
    {
        let addend = Op::Unary {
            function: Unary::Addend(sum),
            width,
            value: 1,
        };
        let function = Binary::PlainSum(Sum::Add);
        let sum = Op::Binary {
            function,
            width,
            first: 0,
            second: 3,
        };
        let with_carry = Op::Binary {
            function,
            width,
            first: 4,
            second: 2,
        };
        self.extend(&[Op::Keep(rd), addend, sum, with_carry, write(rd, 5)]);
    }

    /// A function of two registers, to a register.
    pub fn of_two(rn: u8, rm: u8, function: Binary, width: Width, rd: u8) -> OpList
        ensures { result ≡ Op.Read false rn ∷ Op.Read false rm ∷ Op.Keep rd ∷ Op.Binary function width 0 1 ∷ Op.Write false rd 2 ∷ [] }
    {
        let value = Op::Binary {
            function,
            width,
            first: 0,
            second: 1,
        };
        OpList::of(&[read(rn), read(rm), Op::Keep(rd), value, write(rd, 2)])
    }

    /// A product of two registers added to a third, or taken from it, to a register.
    pub fn of_product(
        rn: u8,
        rm: u8,
        ra: u8,
        function: Binary,
        width: Width,
        sum: Sum,
        rd: u8,
    ) -> OpList
        ensures { result ≡ Op.Read false rn ∷ Op.Read false rm ∷ Op.Read false ra ∷ meaning.product_to function width sum rd }
    {
        let product = Op::Binary {
            function,
            width,
            first: 0,
            second: 1,
        };
        let value = Op::Binary {
            function: Binary::PlainSum(sum),
            width,
            first: 2,
            second: 3,
        };
        OpList::of(&[
            read(rn),
            read(rm),
            read(ra),
            Op::Keep(rd),
            product,
            value,
            write(rd, 4),
        ])
    }

    /// The access that size and opc name, at the address at a place, where there are so many values.
    pub fn access(&mut self, size: u8, opc: u8, rt: u8, at: u8, count: u8)
        requires size { size < 4 }
        requires room { length self.old ≤ 9 }
        requires count { count < 9 }
        ensures { self.new ≡ self.old ++ meaning.access size opc rt at count }
    {
        let bytes = power(size);
        if opc == 0 {
            let function = Unary::Extend {
                option: size,
                amount: 0,
            };
            let low = Op::Unary {
                function,
                width: Width::X,
                value: count,
            };
            self.extend(&[
                read(rt),
                low,
                Op::Store {
                    bytes,
                    value: count + 1,
                    at,
                },
            ]);
        } else {
            let width = if opc == 3 { Width::W } else { Width::X };
            let load = Op::Load {
                bytes,
                signed: opc >= 2,
                width,
                at,
            };
            self.extend(&[load, write(rt, count)]);
        }
    }

    /// The two accesses of a pair, at the address at a place, behind three values.
    pub fn pair(&mut self, opc: u8, l: u8, rt: u8, rt2: u8, at: u8)
        requires { length self.old ≤ 3 }
        ensures { self.new ≡ self.old ++ meaning.pair_access opc l rt rt2 at }
    {
        let bytes = power(pair_size(opc));
        let second = Op::Sum {
            sum: Sum::Add,
            width: Width::X,
            first: at,
            second: 3,
        };
        self.extend(&[Op::Number(u64::from(bytes)), second]);
        if l == 1 {
            self.pair_load(opc, rt, rt2, at);
        } else {
            self.pair_store(opc, rt, rt2, at);
        }
    }

    fn pair_load(&mut self, opc: u8, rt: u8, rt2: u8, at: u8)
        requires { length self.old ≤ 8 }
        ensures { self.new ≡ self.old ++ meaning.pair_load opc rt rt2 at }
    {
        let (bytes, signed, width) = (power(pair_size(opc)), opc == 1, Width::X);
        let first = Op::Load {
            bytes,
            signed,
            width,
            at,
        };
        let second = Op::Load {
            bytes,
            signed,
            width,
            at: 4,
        };
        self.extend(&[first, second, write(rt, 5), write(rt2, 6)]);
    }

    fn pair_store(&mut self, opc: u8, rt: u8, rt2: u8, at: u8)
        requires { length self.old ≤ 6 }
        ensures { self.new ≡ self.old ++ meaning.pair_store opc rt rt2 at }
    {
        let (option, bytes) = (pair_size(opc), power(pair_size(opc)));
        let function = Unary::Extend { option, amount: 0 };
        let low = Op::Unary {
            function,
            width: Width::X,
            value: 5,
        };
        let low_second = Op::Unary {
            function,
            width: Width::X,
            value: 7,
        };
        self.extend(&[read(rt), low, read(rt2), low_second]);
        self.extend(&[
            Op::Store {
                bytes,
                value: 6,
                at,
            },
            Op::Store {
                bytes,
                value: 8,
                at: 4,
            },
        ]);
    }
}
