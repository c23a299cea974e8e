//! Words and instructions.

use a64_decode::decode;
use a64_inst::{Inst, encode};

// A word of each group of rows (DDI 0487, C4.1).
#[test]
fn words_of_the_manual(rt: HostRuntime) {
    let words = [
        // movz x0, #5
        (
            0xD28000A0,
            Inst::MoveWide {
                sf: 1,
                opc: 2,
                hw: 0,
                imm16: 5,
                rd: 0,
            },
        ),
        // and x1, x1, #0xfffffffffffffff0
        (
            0x927CEC21,
            Inst::LogicalImm {
                sf: 1,
                opc: 0,
                n: 1,
                immr: 60,
                imms: 59,
                rn: 1,
                rd: 1,
            },
        ),
        // add w0, w1, w2, lsl #2
        (
            0x0B020820,
            Inst::AddSubShifted {
                sf: 0,
                op: 0,
                s: 0,
                shift: 0,
                rm: 2,
                imm6: 2,
                rn: 1,
                rd: 0,
            },
        ),
        // udiv x0, x0, x1
        (
            0x9AC10800,
            Inst::TwoSources {
                sf: 1,
                rm: 1,
                opcode: 2,
                rn: 0,
                rd: 0,
            },
        ),
        // b #-8
        (
            0x17FFFFFE,
            Inst::BBl {
                op: 0,
                imm26: 0x3FFFFFE,
            },
        ),
        // tbnz x1, #33, #8
        (
            0xB7080041,
            Inst::TbzTbnz {
                b5: 1,
                op: 1,
                b40: 1,
                imm14: 2,
                rt: 1,
            },
        ),
        // ret x30
        (0xD65F03C0, Inst::BrBlrRet { which: 2, rn: 30 }),
        // svc #0
        (0xD4000001, Inst::SvcBrk { which: 0, imm16: 0 }),
        // brk #1
        (0xD4200020, Inst::SvcBrk { which: 1, imm16: 1 }),
        // udf #50
        (0x00000032, Inst::Udf { imm16: 50 }),
        // hint #5
        (0xD50320BF, Inst::Hint { number: 5 }),
        // ldr x0, [sp, #16]!
        (
            0xF8410FE0,
            Inst::UnscaledPostPre {
                size: 3,
                opc: 1,
                imm9: 16,
                idx: 3,
                rn: 31,
                rt: 0,
            },
        ),
        // stp x0, x2, [sp, #-16]!
        (
            0xA9BF0BE0,
            Inst::Pair {
                opc: 2,
                idx: 3,
                l: 0,
                imm7: 126,
                rt2: 2,
                rn: 31,
                rt: 0,
            },
        ),
    ];
    for (word, inst) in words {
        assert_eq!(rt; decode(word), Some(inst));
        assert!(rt; inst.is_allowed());
        assert_eq!(rt; encode(&inst), word);
    }
}

// Reserved fields of each row that has some, and words that are near a row and in none.
#[test]
fn words_of_no_row(rt: HostRuntime) {
    let words = [
        0x8BC00000, // a sum with an operand turned round
        0x0B008000, // a shift by 32 at 32 bits
        0x0A008000, // the same of a logical row
        0x8B201400, // an extension shifted by 5
        0x12400000, // a mask of 64 bits at 32 bits
        0x9240FC00, // a mask of ones alone
        0x9200F800, // no element
        0x32800000, // a wide move with opc 1
        0x52C00000, // a third half at 32 bits
        0xF3400000, // a bit field with opc 3
        0x93000000, // a bit field with N unlike sf
        0x53200000, // a bit field from bit 32 of 32
        0x93800000, // an extract with N unlike sf
        0x13808000, // an extract from bit 32 of 32
        0x9AC00000, // two sources with opcode 0
        0x5AC00C00, // REV of 64 bits at 32 bits
        0xDAC01800, // one source with opcode 6
        0x1B200000, // SMADDL at 32 bits
        0x9B400000, // SMULH that adds
        0xD4000000, // SVC with other low bits
        0xD4200001, // BRK with other low bits
        0x00010000, // UDF with an upper bit
        0xD503301F, // a barrier's place
        0xD61F0001, // BR with other low bits
        0x54000010, // B.cond with bit 4
        0xD8000000, // a literal with opc 3
        0xB9C00000, // a load of 32 bits with a sign to 32
        0xF9800000, // a prefetch
        0xF8400800, // an unprivileged load
        0xF8408C00, // a load into the base that it changes
        0xF8620820, // an offset of 8 bits in a register
        0xA9400000, // a pair of one register twice
        0xA9810400, // a pair with the base that it changes
        0xA8400000, // a pair with idx 0
        0x69000000, // a stored pair with opc 1
        0x3DC00020, // a load of a vector
    ];
    for word in words {
        assert!(rt; decode(word).is_none());
    }
}
