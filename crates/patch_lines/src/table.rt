//! Lines of patch text without a fault, as a table of patches.

ghost use Rattle.std.specs.Prelude.{◌≡◌, ◌++◌, ℕ, List, is_some, IfOk, OnOk};
ghost use Rattle.std.specs.HashMap.{get_by_text};
ghost use Rattle.patch_lines.specs.Building.{body_parts, body_words, functions_at, functions_in, inserts_at, inserts_in, is_end, parts_of_line, words_of_line};
ghost use Rattle.patch_lines.specs.Indexed.{Knows};

use crate::index::Index;
use crate::line::PatchLine;
use crate::spot::insert_block;
use crate::target::word_of;
use gr_base::{Seq, Text};
use indexmap::IndexMap;
use std::alloc::{AllocError, Global};
use sym_expr::{FunLine, Function, Insert, PatchWord};

fn is_end(line: &PatchLine) -> bool
    ensures { result ≡ is_end line.now }
{
    matches!(line, PatchLine::End)
}

fn add_word(
    alloc: Global,
    words: &mut Seq<PatchWord>,
    index: &Index,
    names: &IndexMap<String, ()>,
    line: &PatchLine,
) -> Result<(), AllocError>
    requires { Knows index.now }
    ensures { OnOk result (words.new ≡ words.old ++ words_of_line index.now.«module» (λ q. is_some (get_by_text names.now q)) line.now) }
{
    match line {
        PatchLine::Word(word, sum) => words.push(word_of(alloc, index, names, *word, sum)?),
        _ => Ok(()),
    }
}

/// The words up to the next `end`.
fn body_words(
    alloc: Global,
    index: &Index,
    names: &IndexMap<String, ()>,
    lines: &[PatchLine],
) -> Result<Seq<PatchWord>, AllocError>
    requires { Knows index.now }
    ensures { IfOk result (λ words. words ≡ body_words index.now.«module» (λ q. is_some (get_by_text names.now q)) lines.now) }
{
    let mut words = Seq::new(alloc);
    for line in lines {
        if is_end(line) {
            return Ok(words);
        }
        add_word(alloc, &mut words, index, names, line)?;
    }
    Ok(words)
}

fn add_part(
    alloc: Global,
    parts: &mut Seq<FunLine>,
    index: &Index,
    names: &IndexMap<String, ()>,
    line: &PatchLine,
) -> Result<(), AllocError>
    requires { Knows index.now }
    ensures { OnOk result (parts.new ≡ parts.old ++ parts_of_line index.now.«module» (λ q. is_some (get_by_text names.now q)) line.now) }
{
    match line {
        PatchLine::Word(word, sum) => {
            let word = word_of(alloc, index, names, *word, sum)?;
            parts.push(FunLine::Word(word))
        }
        PatchLine::Label(name) => {
            let name = Text::from_str(alloc, name.as_str())?;
            parts.push(FunLine::Label(name))
        }
        _ => Ok(()),
    }
}

/// The words and labels up to the next `end`.
fn body_parts(
    alloc: Global,
    index: &Index,
    names: &IndexMap<String, ()>,
    lines: &[PatchLine],
) -> Result<Seq<FunLine>, AllocError>
    requires { Knows index.now }
    ensures { IfOk result (λ parts. parts ≡ body_parts index.now.«module» (λ q. is_some (get_by_text names.now q)) lines.now) }
{
    let mut parts = Seq::new(alloc);
    for line in lines {
        if is_end(line) {
            return Ok(parts);
        }
        add_part(alloc, &mut parts, index, names, line)?;
    }
    Ok(parts)
}

/// The insert that a line begins, if it begins one.
fn add_insert(
    alloc: Global,
    inserts: &mut Seq<Insert>,
    index: &Index,
    names: &IndexMap<String, ()>,
    line: &PatchLine,
    behind: &[PatchLine],
) -> Result<(), AllocError>
    requires { Knows index.now }
    ensures { OnOk result (inserts.new ≡ inserts.old ++ inserts_at index.now.«module» (λ q. is_some (get_by_text names.now q)) line.now behind.now) }
{
    match line {
        PatchLine::Insert(spot, offset) => match insert_block(index, spot, *offset) {
            Ok(block) => {
                let body = body_words(alloc, index, names, behind)?;
                inserts.push(Insert {
                    block,
                    offset: *offset,
                    body,
                })
            }
            Err(_) => Ok(()),
        },
        _ => Ok(()),
    }
}

/// The inserts, in order. Each line is looked at twice at most where inserts end with `end`.
pub(crate) fn inserts_in(
    alloc: Global,
    index: &Index,
    names: &IndexMap<String, ()>,
    lines: &[PatchLine],
) -> Result<Seq<Insert>, AllocError>
    requires { Knows index.now }
    ensures { IfOk result (λ inserts. inserts ≡ inserts_in index.now.«module» (λ q. is_some (get_by_text names.now q)) lines.now) }
{
    let mut inserts = Seq::new(alloc);
    let mut rest = lines;
    while let Some((line, behind)) = rest.split_first() {
        add_insert(alloc, &mut inserts, index, names, line, behind)?;
        rest = behind;
    }
    Ok(inserts)
}

/// The function that a line begins, if it begins one.
fn add_function(
    alloc: Global,
    functions: &mut Seq<Function>,
    index: &Index,
    names: &IndexMap<String, ()>,
    line: &PatchLine,
    behind: &[PatchLine],
) -> Result<(), AllocError>
    requires { Knows index.now }
    ensures { OnOk result (functions.new ≡ functions.old ++ functions_at index.now.«module» (λ q. is_some (get_by_text names.now q)) line.now behind.now) }
{
    match line {
        PatchLine::Function(name) => {
            let name = Text::from_str(alloc, name.as_str())?;
            let body = body_parts(alloc, index, names, behind)?;
            functions.push(Function { name, body })
        }
        _ => Ok(()),
    }
}

/// The functions, in order.
pub(crate) fn functions_in(
    alloc: Global,
    index: &Index,
    names: &IndexMap<String, ()>,
    lines: &[PatchLine],
) -> Result<Seq<Function>, AllocError>
    requires { Knows index.now }
    ensures { IfOk result (λ functions. functions ≡ functions_in index.now.«module» (λ q. is_some (get_by_text names.now q)) lines.now) }
{
    let mut functions = Seq::new(alloc);
    let mut rest = lines;
    while let Some((line, behind)) = rest.split_first() {
        add_function(alloc, &mut functions, index, names, line, behind)?;
        rest = behind;
    }
    Ok(functions)
}
