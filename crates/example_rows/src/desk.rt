use crate::group::{Group, Kind};
use crate::names::written_changes;
use crate::program::spelled;
use example_files::{Row, SpellingFault, hello, written_out};
use gr_base::{End, MemDesk, Seq, Text};
use gt_front::{note_text, serve_words};
use std::alloc::{AllocError, Global};

/// The words of a line.
fn words_of(alloc: Global, line: &str) -> Result<Seq<Text>, AllocError> {
    let mut words = Seq::new(alloc);
    for word in line.split_whitespace() {
        words.push(Text::from_str(alloc, word)?)?;
    }
    Ok(words)
}

/// What the program says to the words of a line.
pub fn said(alloc: Global, desk: &mut MemDesk, line: &str) -> Result<String, AllocError> {
    let words = words_of(alloc, line)?;
    let answer = serve_words(alloc, &words, desk);
    Ok(note_text(alloc, &answer)?.into_string())
}

/// The changes of the example that a row asks for, before those of its group.
fn changes_of(alloc: Global, table: &str, group: &Group, row: &Row) -> Result<String, AllocError> {
    let mut out = written_changes(alloc, table, row.changes)?;
    if group.kind == Kind::Programs {
        out.push_str(spelled(alloc, table, row.given)?.as_str())?;
        out.push_str("; ")?;
    }
    out.push_str(written_changes(alloc, table, group.changes.as_str())?.as_str())?;
    Ok(out)
}

/// Appends lines, which stand between semicolons. Empty ones are no lines.
fn push_lines(alloc: Global, text: &mut String, lines: &str) -> Result<(), AllocError> {
    for line in lines.split(';') {
        let line = written_out(alloc, line)?;
        if !line.is_empty() {
            text.push_str(line.as_str())?;
            text.push('\n')?;
        }
    }
    Ok(())
}

/// The lines of a row where its group is of this kind, and else none.
fn lines_of<'a>(kind: Kind, group: &Group, row: &Row<'a>) -> &'a str {
    if group.kind == kind { row.given } else { "" }
}

/// Puts the layout of a row, behind which stands that of its group, on a desk as `l`, and its patches as `p`.
fn put_texts(
    alloc: Global,
    desk: &mut MemDesk,
    group: &Group,
    row: &Row,
) -> Result<(), AllocError> {
    let mut layout = String::new(alloc);
    push_lines(alloc, &mut layout, lines_of(Kind::Layouts, group, row))?;
    push_lines(alloc, &mut layout, group.layout.as_str())?;
    desk.put("l", layout.as_bytes())?;
    let mut patches = String::new(alloc);
    push_lines(alloc, &mut patches, lines_of(Kind::Patches, group, row))?;
    desk.put("p", patches.as_bytes())
}

/// Puts a file of a name and hexadecimal digits on a desk.
fn put_file(alloc: Global, desk: &mut MemDesk, file: &str) -> Result<(), End<SpellingFault>> {
    let Some((name, digits)) = file.trim().split_once(' ') else {
        return Ok(());
    };
    match hex::decode(alloc, digits) {
        Ok(bytes) => Ok(desk.put(name, bytes.as_slice())?),
        Err(_) => Err(End::Fault(SpellingFault::Word)),
    }
}

/// The desk of a row: the example with changes as `a`, the input `ab` as `n`, a layout as `l`, patches as `p`, the file of
/// its group, and what the jobs before it wrote.
pub fn desk_of(
    alloc: Global,
    table: &str,
    group: &Group,
    row: &Row,
) -> Result<MemDesk, End<SpellingFault>> {
    let mut desk = MemDesk::new(alloc, 1 << 20, &[])?;
    let changes = changes_of(alloc, table, group, row)?;
    let bytes = hello(alloc, changes.as_str())?;
    desk.put("a", bytes.as_slice())?;
    desk.put("n", b"ab")?;
    put_texts(alloc, &mut desk, group, row)?;
    put_file(alloc, &mut desk, group.file.as_str())?;
    for line in group.before.split(';') {
        said(alloc, &mut desk, line)?;
    }
    Ok(desk)
}
