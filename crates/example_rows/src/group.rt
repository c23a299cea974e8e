use std::alloc::{AllocError, Global};

/// What stands first in a row.
#[derive(Clone, Copy, Debug, PartialEq, Eq, Drop)]
pub enum Kind {
    /// Further words of the job.
    Options,
    /// A layout.
    Layouts,
    /// Patches.
    Patches,
    /// A program, as instructions.
    Programs,
    /// Nothing is known of the rows.
    Unknown,
}

/// What the rows behind a heading `rows: KIND` share.
#[derive(Drop)]
pub struct Group {
    pub kind: Kind,
    /// Jobs that run before, between semicolons.
    pub before: String,
    /// The jobs whose words are those that rows expect, between semicolons.
    pub job: String,
    /// The end of each layout.
    pub layout: String,
    /// Changes behind those of the row.
    pub changes: String,
    /// A file, as its name and hexadecimal digits.
    pub file: String,
    /// The file that a job makes exactly where it says that it is done.
    pub made: String,
    /// Two files that are the same.
    pub same: String,
}

fn kind_of(word: &str) -> Kind {
    match word {
        "options" => Kind::Options,
        "layouts" => Kind::Layouts,
        "patches" => Kind::Patches,
        "programs" => Kind::Programs,
        _ => Kind::Unknown,
    }
}

/// Appends words, and a space.
fn push_words(text: &mut String, words: &str) -> Result<(), AllocError> {
    text.push_str(words)?;
    text.push(' ')
}

impl Group {
    pub fn new(alloc: Global, kind: Kind) -> Group {
        Group {
            kind,
            before: String::new(alloc),
            job: String::new(alloc),
            layout: String::new(alloc),
            changes: String::new(alloc),
            file: String::new(alloc),
            made: String::new(alloc),
            same: String::new(alloc),
        }
    }

    /// Takes a heading. `rows` begins a new group, each other name adds its words to what it had.
    pub fn take(&mut self, alloc: Global, name: &str, words: &str) -> Result<(), AllocError> {
        match name {
            "before" => push_words(&mut self.before, words),
            "job" => push_words(&mut self.job, words),
            "layout" => push_words(&mut self.layout, words),
            "changes" => push_words(&mut self.changes, words),
            "file" => push_words(&mut self.file, words),
            "made" => self.made.push_str(words),
            "same" => self.same.push_str(words),
            _ => {
                *self = Group::new(alloc, kind_of(words));
                Ok(())
            }
        }
    }
}
