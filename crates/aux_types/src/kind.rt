ghost use Rattle.std.specs.Prelude.{◌≡◌};
ghost use Rattle.aux_types.specs.Shape.{shape_of};
ghost use Rattle.aux_types.specs.Kind.{kind_shape};

use crate::aux_type::AuxType;
use crate::name::Scalar;

/// A type opened by one level.
#[derive(Clone, Copy, Debug)]
pub enum Kind<'a> {
    Scalar(Scalar),
    Sequence(&'a AuxType),
    Set(&'a AuxType),
    Mapping(&'a AuxType, &'a AuxType),
    Tuple(&'a [AuxType]),
    Variant(&'a [AuxType]),
}

impl AuxType {
    /// The type opened by one level.
    pub fn kind(&self) -> Kind<'_>
        ensures { shape_of self.now ≡ kind_shape result }
    {
        match self {
            AuxType::Str => Kind::Scalar(Scalar::Str),
            AuxType::Bool => Kind::Scalar(Scalar::Bool),
            AuxType::Id => Kind::Scalar(Scalar::Id),
            AuxType::Addr => Kind::Scalar(Scalar::Addr),
            AuxType::Offset => Kind::Scalar(Scalar::Offset),
            AuxType::I8 => Kind::Scalar(Scalar::I8),
            AuxType::I16 => Kind::Scalar(Scalar::I16),
            AuxType::I32 => Kind::Scalar(Scalar::I32),
            AuxType::I64 => Kind::Scalar(Scalar::I64),
            AuxType::U8 => Kind::Scalar(Scalar::U8),
            AuxType::U16 => Kind::Scalar(Scalar::U16),
            AuxType::U32 => Kind::Scalar(Scalar::U32),
            AuxType::U64 => Kind::Scalar(Scalar::U64),
            AuxType::Four => Kind::Scalar(Scalar::Four),
            AuxType::Eight => Kind::Scalar(Scalar::Eight),
            AuxType::Sequence(inner) => Kind::Sequence(inner.get()),
            AuxType::Set(inner) => Kind::Set(inner.get()),
            AuxType::Mapping(key, value) => Kind::Mapping(key.get(), value.get()),
            AuxType::Tuple(parts) => Kind::Tuple(parts.as_slice()),
            AuxType::Variant(parts) => Kind::Variant(parts.as_slice()),
        }
    }
}
