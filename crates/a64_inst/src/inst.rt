//! Instructions, by the row of the instruction table that they stand in.

/// An instruction: one variant for each row of the instruction table, with the row's fields from
/// left to right as unsigned numbers. In a row of several whole words `which` counts these from 0.
#[derive(Clone, Copy, Debug, PartialEq, Eq)]
pub enum Inst {
    /// ADR, ADRP.
    AdrAdrp {
        op: u8,
        lo: u8,
        hi: u32,
        rd: u8,
    },
    /// ADD, ADDS, SUB and SUBS of an immediate.
    AddSubImm {
        sf: u8,
        op: u8,
        s: u8,
        sh: u8,
        imm12: u16,
        rn: u8,
        rd: u8,
    },
    /// ADD, ADDS, SUB and SUBS of a shifted register.
    AddSubShifted {
        sf: u8,
        op: u8,
        s: u8,
        shift: u8,
        rm: u8,
        imm6: u8,
        rn: u8,
        rd: u8,
    },
    /// ADD, ADDS, SUB and SUBS of an extended register.
    AddSubExtended {
        sf: u8,
        op: u8,
        s: u8,
        rm: u8,
        option: u8,
        imm3: u8,
        rn: u8,
        rd: u8,
    },
    /// AND, BIC, ORR, ORN, EOR, EON, ANDS and BICS of a shifted register.
    LogicalShifted {
        sf: u8,
        opc: u8,
        shift: u8,
        n: u8,
        rm: u8,
        imm6: u8,
        rn: u8,
        rd: u8,
    },
    /// AND, ORR, EOR and ANDS of an immediate.
    LogicalImm {
        sf: u8,
        opc: u8,
        n: u8,
        immr: u8,
        imms: u8,
        rn: u8,
        rd: u8,
    },
    /// MOVN, MOVZ, MOVK.
    MoveWide {
        sf: u8,
        opc: u8,
        hw: u8,
        imm16: u16,
        rd: u8,
    },
    /// SBFM, BFM, UBFM.
    Bitfield {
        sf: u8,
        opc: u8,
        n: u8,
        immr: u8,
        imms: u8,
        rn: u8,
        rd: u8,
    },
    /// EXTR.
    Extr {
        sf: u8,
        n: u8,
        rm: u8,
        imms: u8,
        rn: u8,
        rd: u8,
    },
    /// UDIV, SDIV, LSLV, LSRV, ASRV, RORV.
    TwoSources {
        sf: u8,
        rm: u8,
        opcode: u8,
        rn: u8,
        rd: u8,
    },
    /// RBIT, REV16, REV, REV32, CLZ, CLS.
    OneSource {
        sf: u8,
        opcode: u8,
        rn: u8,
        rd: u8,
    },
    /// MADD, MSUB, SMADDL, SMSUBL, SMULH, UMADDL, UMSUBL, UMULH.
    ThreeSources {
        sf: u8,
        op: u8,
        rm: u8,
        o0: u8,
        ra: u8,
        rn: u8,
        rd: u8,
    },
    /// ADC, ADCS, SBC, SBCS.
    WithCarry {
        sf: u8,
        op: u8,
        s: u8,
        rm: u8,
        rn: u8,
        rd: u8,
    },
    /// CCMN, CCMP.
    CondCompare {
        sf: u8,
        op: u8,
        rm: u8,
        cond: u8,
        i: u8,
        rn: u8,
        nzcv: u8,
    },
    /// CSEL, CSINC, CSINV, CSNEG.
    CondSelect {
        sf: u8,
        op: u8,
        rm: u8,
        cond: u8,
        o2: u8,
        rn: u8,
        rd: u8,
    },
    /// B, BL.
    BBl {
        op: u8,
        imm26: u32,
    },
    /// B.cond.
    BCond {
        imm19: u32,
        cond: u8,
    },
    /// CBZ, CBNZ.
    CbzCbnz {
        sf: u8,
        op: u8,
        imm19: u32,
        rt: u8,
    },
    /// TBZ, TBNZ.
    TbzTbnz {
        b5: u8,
        op: u8,
        b40: u8,
        imm14: u16,
        rt: u8,
    },
    /// BR, BLR, RET.
    BrBlrRet {
        which: u8,
        rn: u8,
    },
    /// SVC, BRK.
    SvcBrk {
        which: u8,
        imm16: u16,
    },
    /// UDF.
    Udf {
        imm16: u16,
    },
    /// HINT, which does nothing.
    Hint {
        number: u8,
    },
    /// LDR and LDRSW of a literal.
    Literal {
        opc: u8,
        imm19: u32,
        rt: u8,
    },
    /// Loads and stores with an unsigned offset in units of their size.
    Scaled {
        size: u8,
        opc: u8,
        imm12: u16,
        rn: u8,
        rt: u8,
    },
    /// Loads and stores with a signed offset: unscaled, post-indexed and pre-indexed.
    UnscaledPostPre {
        size: u8,
        opc: u8,
        imm9: u16,
        idx: u8,
        rn: u8,
        rt: u8,
    },
    /// Loads and stores with an offset in a register.
    Register {
        size: u8,
        opc: u8,
        rm: u8,
        option: u8,
        s: u8,
        rn: u8,
        rt: u8,
    },
    /// LDP, LDPSW, STP. Of the three bits of idx the upper one is 0.
    Pair {
        opc: u8,
        idx: u8,
        l: u8,
        imm7: u8,
        rt2: u8,
        rn: u8,
        rt: u8,
    },
}
