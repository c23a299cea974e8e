//! The spellings of instructions, those of one operand list in a row (DDI 0487, C6.2).
//!
//! Where several rows have a word, the first spells it when it is printed.

use crate::form::{Apart, FormRow};
use crate::slots::{
    ADR, AMOUNT32, AMOUNT64, BIT, BIT_ABOVE, CONDITION, EXPRESSION, EXTEND, EXTEND_AMOUNT,
    EXTEND_W, EXTEND_X, FLAGS, HALF32, HALF64, HINT, IMM5, IMM12, IMM12_SHIFT, IMM16, IMM16_LOW,
    LABEL, LEFT, MASK32, MASK64, OFFSET_W, OFFSET_X, PAGE, PAIR4, PAIR8, RA, RD, REL14, REL19,
    REL26, RM, RN, ROTATION32, ROTATION64, SCALE1, SCALE2, SCALE4, SCALE8, SHIFT, SHIFT_OR_TURN,
    SIGNED, SPD, SPN, UNSIGNED1, UNSIGNED2, UNSIGNED4, UNSIGNED8, WA, WD, WM, WN, WSPD, WSPN,
};

// A row: mnemonics with the bits of their words, pieces, and registers that differ.
macro_rules! forms {
    ($($($mnemonic:literal $bits:literal),+ => $([$($piece:tt)+])+ $(/ $($apart:expr),+)?;)+) => {
        [$((
            &[$(($mnemonic, $bits)),+],
            &[$(piece!($($piece)+)),+],
            &[$($($apart),+)?],
        )),+]
    };
}

macro_rules! piece {
    ($slot:ident) => {
        piece!("" $slot "")
    };
    ($slot:ident $behind:literal) => {
        piece!("" $slot $behind)
    };
    ($before:literal $slot:ident) => {
        piece!($before $slot "")
    };
    ($before:literal $slot:ident $behind:literal) => {
        ($before, $slot, $behind)
    };
}

/// Spellings with an immediate.
pub static IMMEDIATES: [FormRow; 25] = forms! {
    // Places
    "adr" 0x1000_0000 => [RD ","] [ADR];
    "adrp" 0x9000_0000 => [RD ","] [PAGE];
    "adr" 0x1000_0000, "adrp" 0x9000_0000, "ldr" 0x5800_0000, "ldrsw" 0x9800_0000 => [RD ","] [EXPRESSION];
    "ldr" 0x1800_0000 => [WD ","] [EXPRESSION];
    // Sums of an immediate
    "add" 0x9100_0000, "sub" 0xd100_0000 => [SPD ","] [SPN ","] [IMM12];
    "adds" 0xb100_0000, "subs" 0xf100_0000 => [RD ","] [SPN ","] [IMM12];
    "add" 0x9100_0000, "sub" 0xd100_0000 => [SPD ","] [SPN ","] [IMM12 ","] [LEFT] [IMM12_SHIFT];
    "adds" 0xb100_0000, "subs" 0xf100_0000 => [RD ","] [SPN ","] [IMM12 ","] [LEFT] [IMM12_SHIFT];
    "add" 0x1100_0000, "sub" 0x5100_0000 => [WSPD ","] [WSPN ","] [IMM12];
    "adds" 0x3100_0000, "subs" 0x7100_0000 => [WD ","] [WSPN ","] [IMM12];
    "add" 0x1100_0000, "sub" 0x5100_0000 => [WSPD ","] [WSPN ","] [IMM12 ","] [LEFT] [IMM12_SHIFT];
    "adds" 0x3100_0000, "subs" 0x7100_0000 => [WD ","] [WSPN ","] [IMM12 ","] [LEFT] [IMM12_SHIFT];
    "add" 0x9100_0000 => [SPD ","] [SPN ","] [":lo12:" EXPRESSION];
    // Logical immediates
    "and" 0x9200_0000, "orr" 0xb200_0000, "eor" 0xd200_0000 => [SPD ","] [RN ","] [MASK64];
    "ands" 0xf200_0000 => [RD ","] [RN ","] [MASK64];
    "and" 0x1200_0000, "orr" 0x3200_0000, "eor" 0x5200_0000 => [WSPD ","] [WN ","] [MASK32];
    "ands" 0x7200_0000 => [WD ","] [WN ","] [MASK32];
    // Wide moves, bit fields and extracts
    "movn" 0x9280_0000, "movz" 0xd280_0000, "movk" 0xf280_0000 => [RD ","] [IMM16];
    "movn" 0x9280_0000, "movz" 0xd280_0000, "movk" 0xf280_0000 => [RD ","] [IMM16 ","] [LEFT] [HALF64];
    "sbfm" 0x9340_0000, "bfm" 0xb340_0000, "ubfm" 0xd340_0000 => [RD ","] [RN ","] [ROTATION64 ","] [AMOUNT64];
    "extr" 0x93c0_0000 => [RD ","] [RN ","] [RM ","] [AMOUNT64];
    "movn" 0x1280_0000, "movz" 0x5280_0000, "movk" 0x7280_0000 => [WD ","] [IMM16];
    "movn" 0x1280_0000, "movz" 0x5280_0000, "movk" 0x7280_0000 => [WD ","] [IMM16 ","] [LEFT] [HALF32];
    "sbfm" 0x1300_0000, "bfm" 0x3300_0000, "ubfm" 0x5300_0000 => [WD ","] [WN ","] [ROTATION32 ","] [AMOUNT32];
    "extr" 0x1380_0000 => [WD ","] [WN ","] [WM ","] [AMOUNT32];
};

/// Spellings of registers.
pub static REGISTERS: [FormRow; 23] = forms! {
    // Three registers
    "add" 0x8b00_0000, "adds" 0xab00_0000, "sub" 0xcb00_0000, "subs" 0xeb00_0000,
    "and" 0x8a00_0000, "bic" 0x8a20_0000, "orr" 0xaa00_0000, "orn" 0xaa20_0000,
    "eor" 0xca00_0000, "eon" 0xca20_0000, "ands" 0xea00_0000, "bics" 0xea20_0000,
    "udiv" 0x9ac0_0800, "sdiv" 0x9ac0_0c00, "lslv" 0x9ac0_2000, "lsrv" 0x9ac0_2400,
    "asrv" 0x9ac0_2800, "rorv" 0x9ac0_2c00, "adc" 0x9a00_0000, "adcs" 0xba00_0000,
    "sbc" 0xda00_0000, "sbcs" 0xfa00_0000, "smulh" 0x9b40_7c00, "umulh" 0x9bc0_7c00 => [RD ","] [RN ","] [RM];
    "add" 0x8b00_0000, "adds" 0xab00_0000, "sub" 0xcb00_0000, "subs" 0xeb00_0000 => [RD ","] [RN ","] [RM ","] [SHIFT] [AMOUNT64];
    "and" 0x8a00_0000, "bic" 0x8a20_0000, "orr" 0xaa00_0000, "orn" 0xaa20_0000,
    "eor" 0xca00_0000, "eon" 0xca20_0000, "ands" 0xea00_0000, "bics" 0xea20_0000 => [RD ","] [RN ","] [RM ","] [SHIFT_OR_TURN] [AMOUNT64];
    "add" 0x0b00_0000, "adds" 0x2b00_0000, "sub" 0x4b00_0000, "subs" 0x6b00_0000,
    "and" 0x0a00_0000, "bic" 0x0a20_0000, "orr" 0x2a00_0000, "orn" 0x2a20_0000,
    "eor" 0x4a00_0000, "eon" 0x4a20_0000, "ands" 0x6a00_0000, "bics" 0x6a20_0000,
    "udiv" 0x1ac0_0800, "sdiv" 0x1ac0_0c00, "lslv" 0x1ac0_2000, "lsrv" 0x1ac0_2400,
    "asrv" 0x1ac0_2800, "rorv" 0x1ac0_2c00, "adc" 0x1a00_0000, "adcs" 0x3a00_0000,
    "sbc" 0x5a00_0000, "sbcs" 0x7a00_0000 => [WD ","] [WN ","] [WM];
    "add" 0x0b00_0000, "adds" 0x2b00_0000, "sub" 0x4b00_0000, "subs" 0x6b00_0000 => [WD ","] [WN ","] [WM ","] [SHIFT] [AMOUNT32];
    "and" 0x0a00_0000, "bic" 0x0a20_0000, "orr" 0x2a00_0000, "orn" 0x2a20_0000,
    "eor" 0x4a00_0000, "eon" 0x4a20_0000, "ands" 0x6a00_0000, "bics" 0x6a20_0000 => [WD ","] [WN ","] [WM ","] [SHIFT_OR_TURN] [AMOUNT32];
    // Sums of an extended register
    "add" 0x8b20_0000, "sub" 0xcb20_0000 => [SPD ","] [SPN ","] [WM ","] [EXTEND_W] [EXTEND_AMOUNT];
    "adds" 0xab20_0000, "subs" 0xeb20_0000 => [RD ","] [SPN ","] [WM ","] [EXTEND_W] [EXTEND_AMOUNT];
    "add" 0x8b20_0000, "sub" 0xcb20_0000 => [SPD ","] [SPN ","] [RM ","] [EXTEND_X] [EXTEND_AMOUNT];
    "adds" 0xab20_0000, "subs" 0xeb20_0000 => [RD ","] [SPN ","] [RM ","] [EXTEND_X] [EXTEND_AMOUNT];
    "add" 0x0b20_0000, "sub" 0x4b20_0000 => [WSPD ","] [WSPN ","] [WM ","] [EXTEND] [EXTEND_AMOUNT];
    "adds" 0x2b20_0000, "subs" 0x6b20_0000 => [WD ","] [WSPN ","] [WM ","] [EXTEND] [EXTEND_AMOUNT];
    // One and three sources
    "rbit" 0xdac0_0000, "rev16" 0xdac0_0400, "rev32" 0xdac0_0800, "rev" 0xdac0_0c00,
    "clz" 0xdac0_1000, "cls" 0xdac0_1400 => [RD ","] [RN];
    "rbit" 0x5ac0_0000, "rev16" 0x5ac0_0400, "rev" 0x5ac0_0800, "clz" 0x5ac0_1000,
    "cls" 0x5ac0_1400 => [WD ","] [WN];
    "madd" 0x9b00_0000, "msub" 0x9b00_8000 => [RD ","] [RN ","] [RM ","] [RA];
    "madd" 0x1b00_0000, "msub" 0x1b00_8000 => [WD ","] [WN ","] [WM ","] [WA];
    "smaddl" 0x9b20_0000, "smsubl" 0x9b20_8000, "umaddl" 0x9ba0_0000, "umsubl" 0x9ba0_8000 => [RD ","] [WN ","] [WM ","] [RA];
    // Conditions
    "ccmn" 0xba40_0000, "ccmp" 0xfa40_0000 => [RN ","] [RM ","] [FLAGS ","] [CONDITION];
    "ccmn" 0xba40_0800, "ccmp" 0xfa40_0800 => [RN ","] [IMM5 ","] [FLAGS ","] [CONDITION];
    "csel" 0x9a80_0000, "csinc" 0x9a80_0400, "csinv" 0xda80_0000, "csneg" 0xda80_0400 => [RD ","] [RN ","] [RM ","] [CONDITION];
    "ccmn" 0x3a40_0000, "ccmp" 0x7a40_0000 => [WN ","] [WM ","] [FLAGS ","] [CONDITION];
    "ccmn" 0x3a40_0800, "ccmp" 0x7a40_0800 => [WN ","] [IMM5 ","] [FLAGS ","] [CONDITION];
    "csel" 0x1a80_0000, "csinc" 0x1a80_0400, "csinv" 0x5a80_0000, "csneg" 0x5a80_0400 => [WD ","] [WN ","] [WM ","] [CONDITION];
};

/// Spellings of branches, and of calls of the system.
pub static BRANCHES: [FormRow; 16] = forms! {
    // Branches
    "b" 0x1400_0000, "bl" 0x9400_0000 => [REL26];
    "b" 0x1400_0000, "bl" 0x9400_0000 => [LABEL];
    "b.eq" 0x5400_0000, "b.ne" 0x5400_0001, "b.cs" 0x5400_0002, "b.cc" 0x5400_0003,
    "b.mi" 0x5400_0004, "b.pl" 0x5400_0005, "b.vs" 0x5400_0006, "b.vc" 0x5400_0007,
    "b.hi" 0x5400_0008, "b.ls" 0x5400_0009, "b.ge" 0x5400_000a, "b.lt" 0x5400_000b,
    "b.gt" 0x5400_000c, "b.le" 0x5400_000d, "b.al" 0x5400_000e, "b.nv" 0x5400_000f => [REL19];
    "b.eq" 0x5400_0000, "b.ne" 0x5400_0001, "b.cs" 0x5400_0002, "b.cc" 0x5400_0003,
    "b.mi" 0x5400_0004, "b.pl" 0x5400_0005, "b.vs" 0x5400_0006, "b.vc" 0x5400_0007,
    "b.hi" 0x5400_0008, "b.ls" 0x5400_0009, "b.ge" 0x5400_000a, "b.lt" 0x5400_000b,
    "b.gt" 0x5400_000c, "b.le" 0x5400_000d, "b.al" 0x5400_000e, "b.nv" 0x5400_000f => [LABEL];
    "cbz" 0xb400_0000, "cbnz" 0xb500_0000 => [RD ","] [LABEL];
    "cbz" 0x3400_0000, "cbnz" 0x3500_0000 => [WD ","] [LABEL];
    "cbz" 0xb400_0000, "cbnz" 0xb500_0000, "ldr" 0x5800_0000, "ldrsw" 0x9800_0000 => [RD ","] [REL19];
    "cbz" 0x3400_0000, "cbnz" 0x3500_0000, "ldr" 0x1800_0000 => [WD ","] [REL19];
    "tbz" 0xb600_0000, "tbnz" 0xb700_0000 => [RD ","] [BIT_ABOVE ","] [REL14];
    "tbz" 0xb600_0000, "tbnz" 0xb700_0000 => [RD ","] [BIT_ABOVE ","] [LABEL];
    "tbz" 0x3600_0000, "tbnz" 0x3700_0000 => [WD ","] [BIT ","] [REL14];
    "tbz" 0x3600_0000, "tbnz" 0x3700_0000 => [WD ","] [BIT ","] [LABEL];
    "br" 0xd61f_0000, "blr" 0xd63f_0000, "ret" 0xd65f_0000 => [RN];
    // Calls of the system, traps and hints
    "svc" 0xd400_0001, "brk" 0xd420_0000 => [IMM16];
    "udf" 0x0000_0000 => [IMM16_LOW];
    "hint" 0xd503_201f => [HINT];
};

/// Spellings of loads and stores.
pub static ACCESSES: [FormRow; 19] = forms! {
    // Loads and stores of an unsigned offset
    "ldrsb" 0x3980_0000, "ldrsh" 0x7980_0000, "ldrsw" 0xb980_0000, "str" 0xf900_0000,
    "ldr" 0xf940_0000 => [RD ","] ["[" SPN "]"];
    "ldrsb" 0x3980_0000, "ldrsh" 0x7980_0000, "ldrsw" 0xb980_0000, "str" 0xf900_0000,
    "ldr" 0xf940_0000 => [RD ","] ["[" SPN ","] [":lo12:" EXPRESSION "]"];
    "ldrsb" 0x3980_0000 => [RD ","] ["[" SPN ","] [UNSIGNED1 "]"];
    "ldrsh" 0x7980_0000 => [RD ","] ["[" SPN ","] [UNSIGNED2 "]"];
    "ldrsw" 0xb980_0000 => [RD ","] ["[" SPN ","] [UNSIGNED4 "]"];
    "str" 0xf900_0000, "ldr" 0xf940_0000 => [RD ","] ["[" SPN ","] [UNSIGNED8 "]"];
    "strb" 0x3900_0000, "ldrb" 0x3940_0000, "ldrsb" 0x39c0_0000, "strh" 0x7900_0000,
    "ldrh" 0x7940_0000, "ldrsh" 0x79c0_0000, "str" 0xb900_0000, "ldr" 0xb940_0000 => [WD ","] ["[" SPN "]"];
    "strb" 0x3900_0000, "ldrb" 0x3940_0000, "ldrsb" 0x39c0_0000, "strh" 0x7900_0000,
    "ldrh" 0x7940_0000, "ldrsh" 0x79c0_0000, "str" 0xb900_0000, "ldr" 0xb940_0000 => [WD ","] ["[" SPN ","] [":lo12:" EXPRESSION "]"];
    "strb" 0x3900_0000, "ldrb" 0x3940_0000, "ldrsb" 0x39c0_0000 => [WD ","] ["[" SPN ","] [UNSIGNED1 "]"];
    "strh" 0x7900_0000, "ldrh" 0x7940_0000, "ldrsh" 0x79c0_0000 => [WD ","] ["[" SPN ","] [UNSIGNED2 "]"];
    "str" 0xb900_0000, "ldr" 0xb940_0000 => [WD ","] ["[" SPN ","] [UNSIGNED4 "]"];
    // Loads and stores of a signed offset
    "ldursb" 0x3880_0000, "ldursh" 0x7880_0000, "ldursw" 0xb880_0000, "stur" 0xf800_0000,
    "ldur" 0xf840_0000 => [RD ","] ["[" SPN "]"];
    "ldursb" 0x3880_0000, "ldursh" 0x7880_0000, "ldursw" 0xb880_0000, "stur" 0xf800_0000,
    "ldur" 0xf840_0000 => [RD ","] ["[" SPN ","] [SIGNED "]"];
    "ldrsb" 0x3880_0400, "ldrsh" 0x7880_0400, "ldrsw" 0xb880_0400, "str" 0xf800_0400,
    "ldr" 0xf840_0400 => [RD ","] ["[" SPN "],"] [SIGNED] / Apart::UnlessSp(5, 0);
    "ldrsb" 0x3880_0c00, "ldrsh" 0x7880_0c00, "ldrsw" 0xb880_0c00, "str" 0xf800_0c00,
    "ldr" 0xf840_0c00 => [RD ","] ["[" SPN ","] [SIGNED "]!"] / Apart::UnlessSp(5, 0);
    "sturb" 0x3800_0000, "ldurb" 0x3840_0000, "ldursb" 0x38c0_0000, "sturh" 0x7800_0000,
    "ldurh" 0x7840_0000, "ldursh" 0x78c0_0000, "stur" 0xb800_0000, "ldur" 0xb840_0000 => [WD ","] ["[" SPN "]"];
    "sturb" 0x3800_0000, "ldurb" 0x3840_0000, "ldursb" 0x38c0_0000, "sturh" 0x7800_0000,
    "ldurh" 0x7840_0000, "ldursh" 0x78c0_0000, "stur" 0xb800_0000, "ldur" 0xb840_0000 => [WD ","] ["[" SPN ","] [SIGNED "]"];
    "strb" 0x3800_0400, "ldrb" 0x3840_0400, "ldrsb" 0x38c0_0400, "strh" 0x7800_0400,
    "ldrh" 0x7840_0400, "ldrsh" 0x78c0_0400, "str" 0xb800_0400, "ldr" 0xb840_0400 => [WD ","] ["[" SPN "],"] [SIGNED] / Apart::UnlessSp(5, 0);
    "strb" 0x3800_0c00, "ldrb" 0x3840_0c00, "ldrsb" 0x38c0_0c00, "strh" 0x7800_0c00,
    "ldrh" 0x7840_0c00, "ldrsh" 0x78c0_0c00, "str" 0xb800_0c00, "ldr" 0xb840_0c00 => [WD ","] ["[" SPN ","] [SIGNED "]!"] / Apart::UnlessSp(5, 0);
};

/// Spellings of loads and stores of an offset in a register.
pub static INDEXED: [FormRow; 14] = forms! {
    // Loads and stores of an offset in a register
    "ldrsb" 0x38a0_0800 => [RD ","] ["[" SPN ","] [WM ","] [OFFSET_W] [SCALE1 "]"];
    "ldrsb" 0x38a0_0800 => [RD ","] ["[" SPN ","] [RM ","] [OFFSET_X] [SCALE1 "]"];
    "ldrsh" 0x78a0_0800 => [RD ","] ["[" SPN ","] [WM ","] [OFFSET_W] [SCALE2 "]"];
    "ldrsh" 0x78a0_0800 => [RD ","] ["[" SPN ","] [RM ","] [OFFSET_X] [SCALE2 "]"];
    "ldrsw" 0xb8a0_0800 => [RD ","] ["[" SPN ","] [WM ","] [OFFSET_W] [SCALE4 "]"];
    "ldrsw" 0xb8a0_0800 => [RD ","] ["[" SPN ","] [RM ","] [OFFSET_X] [SCALE4 "]"];
    "str" 0xf820_0800, "ldr" 0xf860_0800 => [RD ","] ["[" SPN ","] [WM ","] [OFFSET_W] [SCALE8 "]"];
    "str" 0xf820_0800, "ldr" 0xf860_0800 => [RD ","] ["[" SPN ","] [RM ","] [OFFSET_X] [SCALE8 "]"];
    "strb" 0x3820_0800, "ldrb" 0x3860_0800, "ldrsb" 0x38e0_0800 => [WD ","] ["[" SPN ","] [WM ","] [OFFSET_W] [SCALE1 "]"];
    "strb" 0x3820_0800, "ldrb" 0x3860_0800, "ldrsb" 0x38e0_0800 => [WD ","] ["[" SPN ","] [RM ","] [OFFSET_X] [SCALE1 "]"];
    "strh" 0x7820_0800, "ldrh" 0x7860_0800, "ldrsh" 0x78e0_0800 => [WD ","] ["[" SPN ","] [WM ","] [OFFSET_W] [SCALE2 "]"];
    "strh" 0x7820_0800, "ldrh" 0x7860_0800, "ldrsh" 0x78e0_0800 => [WD ","] ["[" SPN ","] [RM ","] [OFFSET_X] [SCALE2 "]"];
    "str" 0xb820_0800, "ldr" 0xb860_0800 => [WD ","] ["[" SPN ","] [WM ","] [OFFSET_W] [SCALE4 "]"];
    "str" 0xb820_0800, "ldr" 0xb860_0800 => [WD ","] ["[" SPN ","] [RM ","] [OFFSET_X] [SCALE4 "]"];
};

/// Spellings of loads and stores of pairs.
pub static PAIRS: [FormRow; 20] = forms! {
    // Pairs
    "stp" 0xa900_0000 => [RD ","] [RA ","] ["[" SPN "]"];
    "stp" 0xa900_0000 => [RD ","] [RA ","] ["[" SPN ","] [PAIR8 "]"];
    "stp" 0xa880_0000 => [RD ","] [RA ","] ["[" SPN "],"] [PAIR8] / Apart::UnlessSp(5, 0), Apart::UnlessSp(5, 10);
    "stp" 0xa980_0000 => [RD ","] [RA ","] ["[" SPN ","] [PAIR8 "]!"] / Apart::UnlessSp(5, 0), Apart::UnlessSp(5, 10);
    "ldp" 0xa940_0000 => [RD ","] [RA ","] ["[" SPN "]"] / Apart::Always(0, 10);
    "ldp" 0xa940_0000 => [RD ","] [RA ","] ["[" SPN ","] [PAIR8 "]"] / Apart::Always(0, 10);
    "ldp" 0xa8c0_0000 => [RD ","] [RA ","] ["[" SPN "],"] [PAIR8] / Apart::Always(0, 10), Apart::UnlessSp(5, 0), Apart::UnlessSp(5, 10);
    "ldp" 0xa9c0_0000 => [RD ","] [RA ","] ["[" SPN ","] [PAIR8 "]!"] / Apart::Always(0, 10), Apart::UnlessSp(5, 0), Apart::UnlessSp(5, 10);
    "stp" 0x2900_0000 => [WD ","] [WA ","] ["[" SPN "]"];
    "stp" 0x2900_0000 => [WD ","] [WA ","] ["[" SPN ","] [PAIR4 "]"];
    "stp" 0x2880_0000 => [WD ","] [WA ","] ["[" SPN "],"] [PAIR4] / Apart::UnlessSp(5, 0), Apart::UnlessSp(5, 10);
    "stp" 0x2980_0000 => [WD ","] [WA ","] ["[" SPN ","] [PAIR4 "]!"] / Apart::UnlessSp(5, 0), Apart::UnlessSp(5, 10);
    "ldp" 0x2940_0000 => [WD ","] [WA ","] ["[" SPN "]"] / Apart::Always(0, 10);
    "ldp" 0x2940_0000 => [WD ","] [WA ","] ["[" SPN ","] [PAIR4 "]"] / Apart::Always(0, 10);
    "ldp" 0x28c0_0000 => [WD ","] [WA ","] ["[" SPN "],"] [PAIR4] / Apart::Always(0, 10), Apart::UnlessSp(5, 0), Apart::UnlessSp(5, 10);
    "ldp" 0x29c0_0000 => [WD ","] [WA ","] ["[" SPN ","] [PAIR4 "]!"] / Apart::Always(0, 10), Apart::UnlessSp(5, 0), Apart::UnlessSp(5, 10);
    "ldpsw" 0x6940_0000 => [RD ","] [RA ","] ["[" SPN "]"] / Apart::Always(0, 10);
    "ldpsw" 0x6940_0000 => [RD ","] [RA ","] ["[" SPN ","] [PAIR4 "]"] / Apart::Always(0, 10);
    "ldpsw" 0x68c0_0000 => [RD ","] [RA ","] ["[" SPN "],"] [PAIR4] / Apart::Always(0, 10), Apart::UnlessSp(5, 0), Apart::UnlessSp(5, 10);
    "ldpsw" 0x69c0_0000 => [RD ","] [RA ","] ["[" SPN ","] [PAIR4 "]!"] / Apart::Always(0, 10), Apart::UnlessSp(5, 0), Apart::UnlessSp(5, 10);
};
