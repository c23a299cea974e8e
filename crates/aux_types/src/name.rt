ghost use Rattle.std.specs.Prelude.{◌≡◌};
ghost use Rattle.std.specs.Option.{option_map};
ghost use Rattle.aux_types.specs.Names.{scalar_text, container_text, scalar_named, container_named};

/// A type with no types inside it.
#[derive(Clone, Copy, Debug, PartialEq, Eq)]
pub enum Scalar {
    Str,
    Bool,
    Id,
    Addr,
    Offset,
    I8,
    I16,
    I32,
    I64,
    U8,
    U16,
    U32,
    U64,
    Four,
    Eight,
}

/// What stands before the brackets of a type with types inside it.
#[derive(Clone, Copy, Debug, PartialEq, Eq)]
pub enum Container {
    Sequence,
    Set,
    Mapping,
    Tuple,
    Variant,
}

const SCALARS: [Scalar; 15] = [
    Scalar::Str,
    Scalar::Bool,
    Scalar::Id,
    Scalar::Addr,
    Scalar::Offset,
    Scalar::I8,
    Scalar::I16,
    Scalar::I32,
    Scalar::I64,
    Scalar::U8,
    Scalar::U16,
    Scalar::U32,
    Scalar::U64,
    Scalar::Four,
    Scalar::Eight,
];

const CONTAINERS: [Container; 5] = [
    Container::Sequence,
    Container::Set,
    Container::Mapping,
    Container::Tuple,
    Container::Variant,
];

impl Scalar {
    pub fn text(self) -> &'static str
        ensures { result.now ≡ scalar_text self }
    {
        match self {
            Scalar::Str => "string",
            Scalar::Bool => "bool",
            Scalar::Id => "UUID",
            Scalar::Addr => "Addr",
            Scalar::Offset => "Offset",
            Scalar::I8 => "int8_t",
            Scalar::I16 => "int16_t",
            Scalar::I32 => "int32_t",
            Scalar::I64 => "int64_t",
            Scalar::U8 => "uint8_t",
            Scalar::U16 => "uint16_t",
            Scalar::U32 => "uint32_t",
            Scalar::U64 => "uint64_t",
            Scalar::Four => "float",
            Scalar::Eight => "double",
        }
    }

    #[tactic(auto, unfolding(crate::specs::Names::scalar_named))]
    pub fn named(word: &[u8]) -> Option<Scalar>
        ensures { result ≡ scalar_named word.now }
    {
        SCALARS
            .iter()
            .copied()
            .find(|scalar| scalar.text().as_bytes() == word)
    }
}

impl Container {
    pub fn text(self) -> &'static str
        ensures { result.now ≡ container_text self }
    {
        match self {
            Container::Sequence => "sequence",
            Container::Set => "set",
            Container::Mapping => "mapping",
            Container::Tuple => "tuple",
            Container::Variant => "variant",
        }
    }

    #[tactic(auto, unfolding(crate::specs::Names::container_named))]
    pub fn named(word: &[u8]) -> Option<Container>
        ensures { result ≡ container_named word.now }
    {
        CONTAINERS
            .iter()
            .copied()
            .find(|container| container.text().as_bytes() == word)
    }
}
