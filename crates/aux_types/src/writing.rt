ghost use Rattle.std.specs.Prelude.{◌≡◌, ◌++◌, map, IfOk, OnOk, codes};
ghost use Rattle.std.specs.String.{string_bytes};
ghost use Rattle.aux_types.specs.Names.{container_text, scalar_text};
ghost use Rattle.aux_types.specs.Shape.{shape_of, shapes, name, names, IsNamed, type_text};

use crate::aux_type::AuxType;
use crate::name::{Container, Scalar};
use gr_base::Text;
use std::alloc::{AllocError, Global};

fn put_scalar(out: &mut String, scalar: Scalar) -> Result<(), AllocError>
    ensures { OnOk result (string_bytes out.new ≡ string_bytes out.old ++ scalar_text scalar) }
{
    out.push_str(scalar.text())
}

/// The word of a container and the bracket that opens.
fn put_open(out: &mut String, container: Container) -> Result<(), AllocError>
    ensures { OnOk result (string_bytes out.new ≡ string_bytes out.old ++ (container_text container ++ codes "<")) }
{
    out.push_str(container.text())?;
    out.push_str("<")
}

#[cycle(put_type)]
fn put_one(out: &mut String, container: Container, inner: &AuxType) -> Result<(), AllocError>
    ensures { OnOk result (string_bytes out.new ≡ string_bytes out.old ++ (container_text container ++ codes "<" ++ name (shape_of inner.now) ++ codes ">")) }
{
    put_open(out, container)?;
    put_type(out, inner)?;
    out.push_str(">")
}

/// The names of the parts, with a comma between two.
#[cycle(put_type)]
fn put_names(out: &mut String, parts: &[AuxType]) -> Result<(), AllocError>
    ensures { OnOk result (string_bytes out.new ≡ string_bytes out.old ++ names (shapes (map shape_of parts.now))) }
{
    if let [first, others @ ..] = parts {
        put_type(out, first)?;
        for part in others {
            out.push_str(",")?;
            put_type(out, part)?;
        }
    }
    Ok(())
}

#[cycle(put_type)]
fn put_parts(out: &mut String, container: Container, parts: &[AuxType]) -> Result<(), AllocError>
    ensures { OnOk result (string_bytes out.new ≡ string_bytes out.old ++ (container_text container ++ codes "<" ++ names (shapes (map shape_of parts.now)) ++ codes ">")) }
{
    put_open(out, container)?;
    put_names(out, parts)?;
    out.push_str(">")
}

#[cycle(put_type)]
fn put_type(out: &mut String, of: &AuxType) -> Result<(), AllocError>
    ensures { OnOk result (string_bytes out.new ≡ string_bytes out.old ++ name (shape_of of.now)) }
{
    match of {
        AuxType::Str => put_scalar(out, Scalar::Str),
        AuxType::Bool => put_scalar(out, Scalar::Bool),
        AuxType::Id => put_scalar(out, Scalar::Id),
        AuxType::Addr => put_scalar(out, Scalar::Addr),
        AuxType::Offset => put_scalar(out, Scalar::Offset),
        AuxType::I8 => put_scalar(out, Scalar::I8),
        AuxType::I16 => put_scalar(out, Scalar::I16),
        AuxType::I32 => put_scalar(out, Scalar::I32),
        AuxType::I64 => put_scalar(out, Scalar::I64),
        AuxType::U8 => put_scalar(out, Scalar::U8),
        AuxType::U16 => put_scalar(out, Scalar::U16),
        AuxType::U32 => put_scalar(out, Scalar::U32),
        AuxType::U64 => put_scalar(out, Scalar::U64),
        AuxType::Four => put_scalar(out, Scalar::Four),
        AuxType::Eight => put_scalar(out, Scalar::Eight),
        AuxType::Sequence(inner) => put_one(out, Container::Sequence, inner.get()),
        AuxType::Set(inner) => put_one(out, Container::Set, inner.get()),
        AuxType::Mapping(key, value) => {
            put_open(out, Container::Mapping)?;
            put_type(out, key.get())?;
            out.push_str(",")?;
            put_type(out, value.get())?;
            out.push_str(">")
        }
        AuxType::Tuple(parts) => put_parts(out, Container::Tuple, parts.as_slice()),
        AuxType::Variant(parts) => put_parts(out, Container::Variant, parts.as_slice()),
    }
}

/// The name of a type.
pub fn print_type(alloc: Global, of: &AuxType) -> Result<Text, AllocError>
    // There are the parts that it needs, and at most 32 brackets nest.
    requires { IsNamed (shape_of of.now) }
    ensures { IfOk result (λ text. type_text text of.now) }
{
    let mut out = String::new(alloc);
    put_type(&mut out, of)?;
    Ok(Text::from_string(out))
}
