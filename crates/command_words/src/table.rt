ghost use Rattle.std.specs.Prelude.{◌≡◌, map};
ghost use Rattle.std.specs.Option.{option_map};
ghost use Rattle.std.specs.List.{find};
ghost use Rattle.std.specs.Str.{bytes_eq};
ghost use Rattle.command_words.specs.Table.{job_words, name_words, job_named, same_job, required_of, optional_of, name_named, takes, role_word};

use crate::role::Role;

/// What the program can be asked to do.
#[derive(Clone, Copy, Debug, PartialEq, Eq)]
pub enum Job {
    /// Reads a GTIRB file and writes it canonically.
    Recode,
    /// Says whether a module is a program, and how much there is of everything.
    Check,
    /// Inserts patches in a module and writes the GTIRB file.
    Rewrite,
    /// Writes the default layout of a module's program.
    Layout,
    /// Writes a module as assembly.
    Print,
    /// Links a module's program to an image.
    Link,
    /// Runs an image and writes its output.
    Run,
    /// Runs a module's program without making an address a number, and writes its output.
    Sim,
    /// Makes a program of so many blocks and writes it as a GTIRB file.
    Demo,
}

/// The name before the `=` of a command word.
#[derive(Clone, Copy, Debug, PartialEq, Eq)]
pub enum WordName {
    In,
    Patch,
    Layout,
    Input,
    Out,
    Module,
    Plain,
    Isa,
    Steps,
    Seed,
    Blocks,
}

/// The least and the most of a number, and what it is where no word gives it.
#[derive(Clone, Copy, Debug)]
pub struct Bounds {
    pub least: u64,
    pub most: u64,
    pub unsaid: u64,
}

/// What stands behind the `=` of a name.
#[derive(Clone, Copy, Debug)]
pub enum Kind {
    /// The name of a file.
    File,
    /// A number, in decimal digits.
    Number(Bounds),
    /// `*`, or numbers of flags with commas between them.
    Flags,
}

/// The ordinal of a module.
pub const MODULE: Bounds = Bounds {
    least: 0,
    most: 4_294_967_295,
    unsaid: 0,
};

/// GTIRB's number of the instruction set of a module; 7 is ARM64.
pub const ISA: Bounds = Bounds {
    least: 0,
    most: 2_147_483_647,
    unsaid: 7,
};

/// A flag of an expression.
pub const FLAG: Bounds = Bounds {
    least: 0,
    most: 2_147_483_647,
    unsaid: 0,
};

/// The steps of a run.
pub const STEPS: Bounds = Bounds {
    least: 0,
    most: 10_000_000,
    unsaid: 1_000_000,
};

/// Where the constants of a generated program begin.
pub const SEED: Bounds = Bounds {
    least: 0,
    most: 4_294_967_295,
    unsaid: 0,
};

/// The blocks of a generated program that add a constant.
pub const BLOCKS: Bounds = Bounds {
    least: 1,
    most: 100_000,
    unsaid: 1,
};

/// A job, its word, the names that it requires, and those that it may have.
type JobRow = (Job, &'static str, &'static [WordName], &'static [WordName]);

/// A name, its text, and what stands behind its `=`.
pub type NameRow = (WordName, &'static str, Kind);

/// The jobs.
pub const JOBS: [JobRow; 9] = [
    (Job::Recode, "recode", &[WordName::In, WordName::Out], &[]),
    (
        Job::Check,
        "check",
        &[WordName::In],
        &[WordName::Module, WordName::Plain, WordName::Isa],
    ),
    (
        Job::Rewrite,
        "rewrite",
        &[WordName::In, WordName::Out],
        &[
            WordName::Patch,
            WordName::Module,
            WordName::Plain,
            WordName::Isa,
        ],
    ),
    (
        Job::Layout,
        "layout",
        &[WordName::In, WordName::Out],
        &[
            WordName::Patch,
            WordName::Module,
            WordName::Plain,
            WordName::Isa,
        ],
    ),
    (
        Job::Print,
        "print",
        &[WordName::In, WordName::Out],
        &[
            WordName::Patch,
            WordName::Module,
            WordName::Plain,
            WordName::Isa,
        ],
    ),
    (
        Job::Link,
        "link",
        &[WordName::In, WordName::Out],
        &[
            WordName::Patch,
            WordName::Module,
            WordName::Plain,
            WordName::Isa,
            WordName::Layout,
        ],
    ),
    (
        Job::Run,
        "run",
        &[WordName::In, WordName::Out],
        &[WordName::Input, WordName::Steps],
    ),
    (
        Job::Sim,
        "sim",
        &[WordName::In, WordName::Out],
        &[
            WordName::Patch,
            WordName::Module,
            WordName::Plain,
            WordName::Isa,
            WordName::Layout,
            WordName::Input,
            WordName::Steps,
        ],
    ),
    (
        Job::Demo,
        "demo",
        &[WordName::Seed, WordName::Blocks, WordName::Out],
        &[],
    ),
];

/// The names.
pub const NAMES: [NameRow; 11] = [
    (WordName::In, "in", Kind::File),
    (WordName::Patch, "patch", Kind::File),
    (WordName::Layout, "layout", Kind::File),
    (WordName::Input, "input", Kind::File),
    (WordName::Out, "out", Kind::File),
    (WordName::Module, "module", Kind::Number(MODULE)),
    (WordName::Plain, "plain", Kind::Flags),
    (WordName::Isa, "isa", Kind::Number(ISA)),
    (WordName::Steps, "steps", Kind::Number(STEPS)),
    (WordName::Seed, "seed", Kind::Number(SEED)),
    (WordName::Blocks, "blocks", Kind::Number(BLOCKS)),
];

/// The first row with this word.
fn job_row(rows: &[JobRow], word: &str) -> Option<JobRow>
    ensures { option_map (λ row. job_words row.0 row.1.now row.2.now row.3.now) result
        ≡ find (λ row. bytes_eq row.text word.now) (map (λ row. job_words row.0 row.1.now row.2.now row.3.now) rows.now) }
{
    for row in rows {
        if row.1 == word {
            return Some(*row);
        }
    }
    None
}

/// The first row of a job.
fn row_of(rows: &[JobRow], job: Job) -> Option<JobRow>
    ensures { option_map (λ row. job_words row.0 row.1.now row.2.now row.3.now) result
        ≡ find (λ row. same_job row.job job) (map (λ row. job_words row.0 row.1.now row.2.now row.3.now) rows.now) }
{
    for row in rows {
        if row.0 == job {
            return Some(*row);
        }
    }
    None
}

/// The first row with this text.
fn name_row(rows: &[NameRow], text: &str) -> Option<NameRow>
    ensures { option_map (λ row. name_words row.0 row.1.now row.2) result
        ≡ find (λ row. bytes_eq row.text text.now) (map (λ row. name_words row.0 row.1.now row.2) rows.now) }
{
    for row in rows {
        if row.1 == text {
            return Some(*row);
        }
    }
    None
}

impl Job {
    /// The job that a word names.
    pub fn named(word: &str) -> Option<Job>
        ensures { result ≡ job_named word.now }
    {
        match job_row(&JOBS, word) {
            Some((job, _, _, _)) => Some(job),
            None => None,
        }
    }

    /// The names that the job requires.
    pub fn required(self) -> &'static [WordName]
        ensures { result.now ≡ required_of self }
    {
        match row_of(&JOBS, self) {
            Some((_, _, required, _)) => required,
            None => &[],
        }
    }

    /// The names that the job may have besides.
    fn optional(self) -> &'static [WordName]
        ensures { result.now ≡ optional_of self }
    {
        match row_of(&JOBS, self) {
            Some((_, _, _, optional)) => optional,
            None => &[],
        }
    }

    /// Whether the job has words of this name.
    pub fn takes(self, name: WordName) -> bool
        ensures { result ≡ takes self name }
    {
        self.required().contains(&name) || self.optional().contains(&name)
    }
}

impl WordName {
    /// The row of the name that a text is.
    pub fn named(text: &str) -> Option<NameRow>
        ensures { option_map (λ row. name_words row.0 row.1.now row.2) result ≡ name_named text.now }
    {
        name_row(&NAMES, text)
    }
}

impl Role {
    /// The name whose word gives the file of this role.
    pub fn word(self) -> WordName
        ensures { result ≡ role_word self }
    {
        match self {
            Role::In => WordName::In,
            Role::Patch => WordName::Patch,
            Role::Layout => WordName::Layout,
            Role::Input => WordName::Input,
        }
    }
}
