//! The operands of words that an expression can give, and the words that have one.

ghost use Rattle.std.specs.Prelude.{◌≡◌};
ghost use Rattle.a64_inst.specs.Kinds.{is_branch, operand, operand_kind, words_among};

/// What an expression gives to a word.
#[derive(Clone, Copy, Debug, PartialEq, Eq)]
pub enum Kind {
    /// The distance to the target: B, BL.
    Rel26,
    /// The distance to the target: B.cond, CBZ, CBNZ and the loads of a literal.
    Rel19,
    /// The distance to the target: TBZ, TBNZ.
    Rel14,
    /// The distance to the target: ADR.
    Adr,
    /// The distance from page to page, of 4096 bytes each: ADRP.
    Page,
    /// The low twelve bits of the target, in units of so many bytes: ADD and scaled accesses.
    Low12(u8),
}

/// Words that have an operand of one kind, those that have this value in the bits of the mask, and
/// whether they are direct branches.
#[derive(Clone, Copy, Debug, PartialEq, Eq)]
pub struct KindWords {
    pub mask: u32,
    pub value: u32,
    pub kind: Kind,
    pub branch: bool,
}

/// The words that have an operand (DDI 0487, C4.1): no word is in two rows.
pub const KIND_WORDS: [KindWords; 21] = [
    // B, BL
    KindWords {
        mask: 0x7c00_0000,
        value: 0x1400_0000,
        kind: Kind::Rel26,
        branch: true,
    },
    // B.cond
    KindWords {
        mask: 0xff00_0010,
        value: 0x5400_0000,
        kind: Kind::Rel19,
        branch: true,
    },
    // CBZ, CBNZ
    KindWords {
        mask: 0x7e00_0000,
        value: 0x3400_0000,
        kind: Kind::Rel19,
        branch: true,
    },
    // LDR (literal)
    KindWords {
        mask: 0xbf00_0000,
        value: 0x1800_0000,
        kind: Kind::Rel19,
        branch: false,
    },
    // LDRSW (literal)
    KindWords {
        mask: 0xff00_0000,
        value: 0x9800_0000,
        kind: Kind::Rel19,
        branch: false,
    },
    // LDR (literal, SIMD&FP), 32 and 64 bits
    KindWords {
        mask: 0xbf00_0000,
        value: 0x1c00_0000,
        kind: Kind::Rel19,
        branch: false,
    },
    // LDR (literal, SIMD&FP), 128 bits
    KindWords {
        mask: 0xff00_0000,
        value: 0x9c00_0000,
        kind: Kind::Rel19,
        branch: false,
    },
    // TBZ, TBNZ
    KindWords {
        mask: 0x7e00_0000,
        value: 0x3600_0000,
        kind: Kind::Rel14,
        branch: true,
    },
    // ADR
    KindWords {
        mask: 0x9f00_0000,
        value: 0x1000_0000,
        kind: Kind::Adr,
        branch: false,
    },
    // ADRP
    KindWords {
        mask: 0x9f00_0000,
        value: 0x9000_0000,
        kind: Kind::Page,
        branch: false,
    },
    // ADD (immediate), 64 bits, not shifted
    KindWords {
        mask: 0xffc0_0000,
        value: 0x9100_0000,
        kind: Kind::Low12(1),
        branch: false,
    },
    // STRB, LDRB, LDRSB
    KindWords {
        mask: 0xff00_0000,
        value: 0x3900_0000,
        kind: Kind::Low12(1),
        branch: false,
    },
    // STRH, LDRH, LDRSH
    KindWords {
        mask: 0xff00_0000,
        value: 0x7900_0000,
        kind: Kind::Low12(2),
        branch: false,
    },
    // STR, LDR of 32 bits
    KindWords {
        mask: 0xff80_0000,
        value: 0xb900_0000,
        kind: Kind::Low12(4),
        branch: false,
    },
    // LDRSW
    KindWords {
        mask: 0xffc0_0000,
        value: 0xb980_0000,
        kind: Kind::Low12(4),
        branch: false,
    },
    // STR, LDR of 64 bits
    KindWords {
        mask: 0xff80_0000,
        value: 0xf900_0000,
        kind: Kind::Low12(8),
        branch: false,
    },
    // STR, LDR (SIMD&FP) of 8, 16, 32, 64 and 128 bits
    KindWords {
        mask: 0xff80_0000,
        value: 0x3d00_0000,
        kind: Kind::Low12(1),
        branch: false,
    },
    KindWords {
        mask: 0xff80_0000,
        value: 0x7d00_0000,
        kind: Kind::Low12(2),
        branch: false,
    },
    KindWords {
        mask: 0xff80_0000,
        value: 0xbd00_0000,
        kind: Kind::Low12(4),
        branch: false,
    },
    KindWords {
        mask: 0xff80_0000,
        value: 0xfd00_0000,
        kind: Kind::Low12(8),
        branch: false,
    },
    KindWords {
        mask: 0xff80_0000,
        value: 0x3d80_0000,
        kind: Kind::Low12(16),
        branch: false,
    },
];

fn words_among(rows: &[KindWords], word: u32) -> Option<KindWords>
    ensures { result ≡ words_among rows.now word }
{
    rows.iter()
        .copied()
        .find(|row| word & row.mask == row.value)
}

/// The kind of the operand of a word that an expression can give, if it has one.
pub fn operand_kind(word: u32) -> Option<Kind>
    ensures { result ≡ operand_kind word }
{
    match words_among(&KIND_WORDS, word) {
        Some(row) => Some(row.kind),
        None => None,
    }
}

/// Whether the word is B, BL, B.cond, CBZ, CBNZ, TBZ or TBNZ.
pub fn is_branch(word: u32) -> bool
    ensures { result ≡ is_branch word }
{
    match words_among(&KIND_WORDS, word) {
        Some(row) => row.branch,
        None => false,
    }
}

/// Some bits of a word: how many, and how many stand below them.
#[derive(Clone, Copy, Debug, PartialEq, Eq)]
pub struct Bits {
    pub width: u32,
    pub place: u32,
}

/// What a kind of operand takes: the values from `least` to `most` that are multiples of the unit. The
/// word has the number of units, modulo the bits that there are: the low ones in `low`, those above
/// in `high`.
#[derive(Clone, Copy, Debug, PartialEq, Eq)]
pub struct Operand {
    pub least: i64,
    pub most: i64,
    pub unit: u32,
    pub low: Bits,
    pub high: Bits,
}

const NO_BITS: Bits = Bits { width: 0, place: 0 };

pub const REL26: Operand = Operand {
    least: -(1 << 27),
    most: (1 << 27) - 4,
    unit: 4,
    low: Bits {
        width: 26,
        place: 0,
    },
    high: NO_BITS,
};

pub const REL19: Operand = Operand {
    least: -(1 << 20),
    most: (1 << 20) - 4,
    unit: 4,
    low: Bits {
        width: 19,
        place: 5,
    },
    high: NO_BITS,
};

pub const REL14: Operand = Operand {
    least: -(1 << 15),
    most: (1 << 15) - 4,
    unit: 4,
    low: Bits {
        width: 14,
        place: 5,
    },
    high: NO_BITS,
};

pub const ADR: Operand = Operand {
    least: -(1 << 20),
    most: (1 << 20) - 1,
    unit: 1,
    low: Bits {
        width: 2,
        place: 29,
    },
    high: Bits {
        width: 19,
        place: 5,
    },
};

pub const PAGE: Operand = Operand {
    least: -(1 << 32),
    most: (1 << 32) - 4096,
    unit: 4096,
    low: Bits {
        width: 2,
        place: 29,
    },
    high: Bits {
        width: 19,
        place: 5,
    },
};

pub const LOW12: Operand = Operand {
    least: 0,
    most: 4095,
    unit: 1,
    low: Bits {
        width: 12,
        place: 10,
    },
    high: NO_BITS,
};

impl Kind {
    /// What a word with an operand of this kind takes.
    pub fn operand(self) -> Operand
        ensures { result ≡ operand self }
    {
        match self {
            Kind::Rel26 => REL26,
            Kind::Rel19 => REL19,
            Kind::Rel14 => REL14,
            Kind::Adr => ADR,
            Kind::Page => PAGE,
            Kind::Low12(unit) => Operand {
                unit: u32::from(unit),
                ..LOW12
            },
        }
    }
}
