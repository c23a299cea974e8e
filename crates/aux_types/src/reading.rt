ghost use Rattle.std.specs.Prelude.{◌≡◌, ◌-◌, ◌≤◌, length, map, Ok, IfOk};
ghost use Rattle.std.specs.List.{prefix_len};
ghost use Rattle.aux_types.specs.Gives.{Gives};
ghost use Rattle.aux_types.specs.Names.{is_word_byte};
ghost use Rattle.aux_types.specs.Shape.{shape_of, shapes, Plain, type_text};
ghost use Rattle.aux_types.specs.Reading.{word, after_word, expect, one, two, separator, all_parts, inside, container_at, type_at, read_type};

use crate::aux_type::AuxType;
use crate::fault::TypeFault;
use crate::name::{Container, Scalar};
use gr_base::End;
use sqlite_items::{Boxed, Items};
use std::alloc::Global;

/// How many brackets may nest.
const MOST_BRACKETS: u8 = 32;

/// Where bytes stand in a text, by how many are left from there on.
fn place(total: usize, left: &[u8]) -> u64
    ensures { result ≡ total - length left.now }
{
    total.saturating_sub(left.len()) as u64
}

fn is_word_byte(byte: u8) -> bool
    ensures { result ≡ is_word_byte byte }
{
    byte.is_ascii_alphanumeric() || byte == b'_'
}

fn word_len(text: &[u8]) -> usize
    ensures { result ≡ prefix_len is_word_byte text.now }
{
    text.iter().take_while(|byte| is_word_byte(**byte)).count()
}

/// The longest run of letters, digits and underscores, and what is left after it.
fn split_word(text: &[u8]) -> (&[u8], &[u8])
    ensures word { result.0.now ≡ word text.now }
    ensures rest { result.1.now ≡ after_word text.now }
{
    text.split_at(word_len(text))
}

fn expect(total: usize, byte: u8, text: &[u8]) -> Result<&[u8], End<TypeFault>>
    ensures { Gives (λ rest. rest.now) result (expect total byte text.now) }
{
    match text {
        [first, rest @ ..] if *first == byte => Ok(rest),
        _ => Err(End::Fault(TypeFault::NotAType(place(total, text)))),
    }
}

/// The type of a scalar.
fn plain(scalar: Scalar) -> AuxType
    ensures { shape_of result ≡ Plain scalar }
{
    match scalar {
        Scalar::Str => AuxType::Str,
        Scalar::Bool => AuxType::Bool,
        Scalar::Id => AuxType::Id,
        Scalar::Addr => AuxType::Addr,
        Scalar::Offset => AuxType::Offset,
        Scalar::I8 => AuxType::I8,
        Scalar::I16 => AuxType::I16,
        Scalar::I32 => AuxType::I32,
        Scalar::I64 => AuxType::I64,
        Scalar::U8 => AuxType::U8,
        Scalar::U16 => AuxType::U16,
        Scalar::U32 => AuxType::U32,
        Scalar::U64 => AuxType::U64,
        Scalar::Four => AuxType::Four,
        Scalar::Eight => AuxType::Eight,
    }
}

/// One type and the bracket that closes.
#[cycle(type_at)]
#[tactic(auto, unfolding(crate::specs::Reading::one))]
fn one(
    alloc: Global,
    total: usize,
    room: u8,
    text: &[u8],
) -> Result<(AuxType, &[u8]), End<TypeFault>>
    ensures { Gives (λ x. (shape_of x.0, x.1.now)) result (one (type_at total room) total text.now) }
{
    let (inner, rest) = type_at(alloc, total, room, text)?;
    let rest = expect(total, b'>', rest)?;
    Ok((inner, rest))
}

/// Two types, with a comma between them, and the bracket that closes.
#[cycle(type_at)]
#[tactic(auto, unfolding(crate::specs::Reading::two))]
fn two(
    alloc: Global,
    total: usize,
    room: u8,
    text: &[u8],
) -> Result<(AuxType, AuxType, &[u8]), End<TypeFault>>
    ensures { Gives (λ x. ((shape_of x.0, shape_of x.1), x.2.now)) result (two (type_at total room) total text.now) }
{
    let (key, rest) = type_at(alloc, total, room, text)?;
    let rest = expect(total, b',', rest)?;
    let (value, rest) = one(alloc, total, room, rest)?;
    Ok((key, value, rest))
}

/// Whether another part follows behind a comma, or the bracket closes.
fn separator(total: usize, text: &[u8]) -> Result<(bool, &[u8]), End<TypeFault>>
    ensures { Gives (λ x. (x.0, x.1.now)) result (separator total text.now) }
{
    match text {
        [b',', rest @ ..] => Ok((true, rest)),
        [b'>', rest @ ..] => Ok((false, rest)),
        _ => Err(End::Fault(TypeFault::NotAType(place(total, text)))),
    }
}

/// One type or more, with a comma between two, and the bracket that closes.
#[cycle(type_at)]
fn parts(
    alloc: Global,
    total: usize,
    room: u8,
    text: &[u8],
) -> Result<(Items<AuxType>, &[u8]), End<TypeFault>>
    ensures { Gives (λ x. (shapes (map shape_of x.0), x.1.now)) result (all_parts (type_at total room) total text.now) }
{
    let mut parts = Items::new(alloc);
    let mut rest = text;
    loop {
        let (part, after) = type_at(alloc, total, room, rest)?;
        parts.push(part)?;
        let (more, after) = separator(total, after)?;
        if !more {
            return Ok((parts, after));
        }
        rest = after;
    }
}

/// What stands behind the open bracket of a container.
#[cycle(type_at)]
#[tactic(auto, unfolding(crate::specs::Reading::inside))]
fn inside(
    alloc: Global,
    total: usize,
    room: u8,
    container: Container,
    text: &[u8],
) -> Result<(AuxType, &[u8]), End<TypeFault>>
    ensures { Gives (λ x. (shape_of x.0, x.1.now)) result (inside (type_at total room) total container text.now) }
{
    match container {
        Container::Sequence => {
            let (inner, rest) = one(alloc, total, room, text)?;
            Ok((AuxType::Sequence(Boxed::new(alloc, inner)?), rest))
        }
        Container::Set => {
            let (inner, rest) = one(alloc, total, room, text)?;
            Ok((AuxType::Set(Boxed::new(alloc, inner)?), rest))
        }
        Container::Mapping => {
            let (key, value, rest) = two(alloc, total, room, text)?;
            let key = Boxed::new(alloc, key)?;
            let value = Boxed::new(alloc, value)?;
            Ok((AuxType::Mapping(key, value), rest))
        }
        Container::Tuple => {
            let (parts, rest) = parts(alloc, total, room, text)?;
            Ok((AuxType::Tuple(parts), rest))
        }
        Container::Variant => {
            let (parts, rest) = parts(alloc, total, room, text)?;
            Ok((AuxType::Variant(parts), rest))
        }
    }
}

/// A container with its brackets, inside which so many brackets may nest, its own among them.
#[cycle(type_at)]
fn container_at(
    alloc: Global,
    total: usize,
    room: u8,
    container: Container,
    text: &[u8],
) -> Result<(AuxType, &[u8]), End<TypeFault>>
    ensures { Gives (λ x. (shape_of x.0, x.1.now)) result (container_at total room container text.now) }
{
    let rest = expect(total, b'<', text)?;
    if room == 0 {
        return Err(End::Fault(TypeFault::Deep(place(total, text))));
    }
    inside(alloc, total, room - 1, container, rest)
}

/// The type at the front, inside which so many brackets may nest.
#[cycle(type_at)]
fn type_at(
    alloc: Global,
    total: usize,
    room: u8,
    text: &[u8],
) -> Result<(AuxType, &[u8]), End<TypeFault>>
    ensures { Gives (λ x. (shape_of x.0, x.1.now)) result (type_at total room text.now) }
{
    let (word, rest) = split_word(text);
    if let Some(scalar) = Scalar::named(word) {
        return Ok((plain(scalar), rest));
    }
    match Container::named(word) {
        Some(container) => container_at(alloc, total, room, container, rest),
        None => Err(End::Fault(TypeFault::NotAType(place(total, text)))),
    }
}

/// The type that a text names, all of the text.
#[tactic(auto, unfolding(crate::specs::Reading::read_type))]
fn whole(alloc: Global, text: &[u8]) -> Result<AuxType, End<TypeFault>>
    ensures { Gives shape_of result (read_type text.now) }
{
    let (found, rest) = type_at(alloc, text.len(), MOST_BRACKETS, text)?;
    if !rest.is_empty() {
        return Err(End::Fault(TypeFault::NotAType(place(text.len(), rest))));
    }
    Ok(found)
}

/// The type that a text names.
pub fn parse_type(alloc: Global, text: &str) -> Result<AuxType, End<TypeFault>>
    // What is parsed has the text as its name.
    ensures found { IfOk result (λ t. type_text text.now t) }
    // The type that has the text as its name is parsed, unless memory runs out.
    ensures only { (t : AuxType) → type_text text.now t → Gives (λ x. x) result (Ok t) }
    // Which fault it is.
    ensures exact { Gives shape_of result (read_type text.now) }
{
    whole(alloc, text.as_bytes())
}
