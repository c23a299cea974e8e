//! The word of an instruction.

ghost use Rattle.std.specs.Prelude.{◌≡◌, ◌^◌, ◌&&◌, IsTrue, length, nat_lt};
ghost use Rattle.std.specs.List.{list_all};
ghost use Rattle.a64_inst.specs.Table.{fields_fit, is_allowed, word_of};
ghost use Rattle.a64_inst.specs.Pieces.{fits_piece, has_room, joined_pieces};

use crate::inst::Inst;

// What a function makes of the pieces of an instruction's word: from the left each piece's width and
// its value, one row a line.
macro_rules! of_pieces {
    ($inst:expr, $function:ident) => {
        rows! { *$inst, $function,
            Inst::AdrAdrp { op, lo, hi, rd } =>
                1 op, 2 lo, 5 0b10000, 19 hi, 5 rd;
            Inst::AddSubImm { sf, op, s, sh, imm12, rn, rd } =>
                1 sf, 1 op, 1 s, 6 0b100010, 1 sh, 12 imm12, 5 rn, 5 rd;
            Inst::AddSubShifted { sf, op, s, shift, rm, imm6, rn, rd } =>
                1 sf, 1 op, 1 s, 5 0b01011, 2 shift, 1 0b0, 5 rm, 6 imm6, 5 rn, 5 rd;
            Inst::AddSubExtended { sf, op, s, rm, option, imm3, rn, rd } =>
                1 sf, 1 op, 1 s, 8 0b01011001, 5 rm, 3 option, 3 imm3, 5 rn, 5 rd;
            Inst::LogicalShifted { sf, opc, shift, n, rm, imm6, rn, rd } =>
                1 sf, 2 opc, 5 0b01010, 2 shift, 1 n, 5 rm, 6 imm6, 5 rn, 5 rd;
            Inst::LogicalImm { sf, opc, n, immr, imms, rn, rd } =>
                1 sf, 2 opc, 6 0b100100, 1 n, 6 immr, 6 imms, 5 rn, 5 rd;
            Inst::MoveWide { sf, opc, hw, imm16, rd } =>
                1 sf, 2 opc, 6 0b100101, 2 hw, 16 imm16, 5 rd;
            Inst::Bitfield { sf, opc, n, immr, imms, rn, rd } =>
                1 sf, 2 opc, 6 0b100110, 1 n, 6 immr, 6 imms, 5 rn, 5 rd;
            Inst::Extr { sf, n, rm, imms, rn, rd } =>
                1 sf, 8 0b00100111, 1 n, 1 0b0, 5 rm, 6 imms, 5 rn, 5 rd;
            Inst::TwoSources { sf, rm, opcode, rn, rd } =>
                1 sf, 10 0b0011010110, 5 rm, 6 opcode, 5 rn, 5 rd;
            Inst::OneSource { sf, opcode, rn, rd } =>
                1 sf, 15 0b101101011000000, 6 opcode, 5 rn, 5 rd;
            Inst::ThreeSources { sf, op, rm, o0, ra, rn, rd } =>
                1 sf, 7 0b0011011, 3 op, 5 rm, 1 o0, 5 ra, 5 rn, 5 rd;
            Inst::WithCarry { sf, op, s, rm, rn, rd } =>
                1 sf, 1 op, 1 s, 8 0b11010000, 5 rm, 6 0b000000, 5 rn, 5 rd;
            Inst::CondCompare { sf, op, rm, cond, i, rn, nzcv } =>
                1 sf, 1 op, 9 0b111010010, 5 rm, 4 cond, 1 i, 1 0b0, 5 rn, 1 0b0, 4 nzcv;
            Inst::CondSelect { sf, op, rm, cond, o2, rn, rd } =>
                1 sf, 1 op, 9 0b011010100, 5 rm, 4 cond, 1 0b0, 1 o2, 5 rn, 5 rd;
            Inst::BBl { op, imm26 } =>
                1 op, 5 0b00101, 26 imm26;
            Inst::BCond { imm19, cond } =>
                8 0b01010100, 19 imm19, 1 0b0, 4 cond;
            Inst::CbzCbnz { sf, op, imm19, rt } =>
                1 sf, 6 0b011010, 1 op, 19 imm19, 5 rt;
            Inst::TbzTbnz { b5, op, b40, imm14, rt } =>
                1 b5, 6 0b011011, 1 op, 5 b40, 14 imm14, 5 rt;
            Inst::BrBlrRet { which: 0, rn } =>
                22 0b1101011000011111000000, 5 rn, 5 0b00000;
            Inst::BrBlrRet { which: 1, rn } =>
                22 0b1101011000111111000000, 5 rn, 5 0b00000;
            Inst::BrBlrRet { which: _, rn } =>
                22 0b1101011001011111000000, 5 rn, 5 0b00000;
            Inst::SvcBrk { which: 0, imm16 } =>
                11 0b11010100000, 16 imm16, 5 0b00001;
            Inst::SvcBrk { which: _, imm16 } =>
                11 0b11010100001, 16 imm16, 5 0b00000;
            Inst::Udf { imm16 } =>
                16 0b0000000000000000, 16 imm16;
            Inst::Hint { number } =>
                20 0b11010101000000110010, 7 number, 5 0b11111;
            Inst::Literal { opc, imm19, rt } =>
                2 opc, 6 0b011000, 19 imm19, 5 rt;
            Inst::Scaled { size, opc, imm12, rn, rt } =>
                2 size, 6 0b111001, 2 opc, 12 imm12, 5 rn, 5 rt;
            Inst::UnscaledPostPre { size, opc, imm9, idx, rn, rt } =>
                2 size, 6 0b111000, 2 opc, 1 0b0, 9 imm9, 2 idx, 5 rn, 5 rt;
            Inst::Register { size, opc, rm, option, s, rn, rt } =>
                2 size, 6 0b111000, 2 opc, 1 0b1, 5 rm, 3 option, 1 s, 2 0b10, 5 rn, 5 rt;
            Inst::Pair { opc, idx, l, imm7, rt2, rn, rt } =>
                2 opc, 5 0b10100, 2 idx, 1 l, 7 imm7, 5 rt2, 5 rn, 5 rt;
        }
    };
}

macro_rules! rows {
    ($inst:expr, $function:ident, $($row:pat => $($width:literal $value:expr),+;)+) => {
        match $inst {
            $($row => $function(&[$(($width, $value as u32)),+]),)+
        }
    };
}

/// The word of an instruction.
pub fn encode(inst: &Inst) -> u32
    requires { IsTrue (is_allowed inst.now) }
    ensures { result ≡ word_of inst.now }
{
    of_pieces!(inst, joined)
}

// Whether each field fits its bits.
pub(crate) fn fields_fit(inst: &Inst) -> bool
    ensures { result ≡ fields_fit inst.now }
{
    of_pieces!(inst, fit)
}

fn fit(pieces: &[(u32, u32)]) -> bool
    ensures { result ≡ list_all fits_piece pieces.now }
{
    pieces
        .iter()
        .all(|&(width, value)| fits_width(value, width))
}

#[tactic(auto, using(std::proofs::lemmas::Nat::one_shl))]
fn fits_width(value: u32, width: u32) -> bool
    ensures { result ≡ (nat_lt width 32 && nat_lt value (2 ^ width)) }
{
    width < 32 && value < 1 << width
}

fn joined(pieces: &[(u32, u32)]) -> u32
    requires room { IsTrue (has_room 32 pieces.now) }
    requires value { IsTrue (list_all fits_piece pieces.now) }
    ensures { result ≡ joined_pieces 32 pieces.now }
{
    let mut word = 0;
    let mut place = 32;
    for &(width, value) in pieces {
        place -= width;
        word += value << place;
    }
    word
}
