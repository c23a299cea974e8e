ghost use Rattle.std.specs.Prelude.{◌≡◌, ◌<◌, length, IfSome, IfNone, IfErr, IfOk, take, slice_index_or, [], false};
ghost use Rattle.std.specs.Option.{option_map};
ghost use Rattle.command_words.specs.Words.{fits, given_view, word_parts, value_at, value_of, is_fine, lacks_any, Usage, FineBelow, WordsOk};
ghost use Rattle.command_words.specs.Picked.{picked, picked_view, settings_of, number_in, InBounds};
ghost use Rattle.command_words.specs.Numbers.{IsWithin};

use crate::number::are_flags;
use crate::role::Role;
use crate::table::{BLOCKS, Bounds, ISA, Job, Kind, MODULE, SEED, STEPS, WordName};
use gr_base::Text;

impl Kind {
    /// Whether a text may stand behind the `=`.
    fn fits(self, value: &str) -> bool
        ensures { result ≡ fits self value.now }
    {
        match self {
            Kind::File => !value.is_empty() && value.len() <= 4096,
            Kind::Number(bounds) => bounds.number(value).is_some(),
            Kind::Flags => are_flags(value),
        }
    }
}

/// What stands before and behind the `=` of a word.
#[derive(Clone, Copy, Debug)]
struct Said<'a> {
    name: WordName,
    kind: Kind,
    value: &'a str,
}

/// The parts of a word, if what stands before the `=` is a name.
fn parts(word: &str) -> Option<Said<'_>>
    ensures { option_map given_view result ≡ word_parts word.now }
{
    let (name, value) = word.split_once('=')?;
    let (name, _, kind) = WordName::named(name)?;
    Some(Said { name, kind, value })
}

/// The value that a word gives to a name.
fn value_at(name: WordName, word: &str) -> Option<&str>
    ensures { option_map (λ v. v.now) result ≡ value_at name word.now }
{
    let said = parts(word)?;
    if said.name == name {
        Some(said.value)
    } else {
        None
    }
}

/// The value that the first word of a name gives.
fn value_in(name: WordName, words: &[Text]) -> Option<&str>
    ensures { option_map (λ v. v.now) result ≡ value_of name words.now }
{
    for word in words {
        if let Some(value) = value_at(name, word.as_str()) {
            return Some(value);
        }
    }
    None
}

/// Whether a word keeps the rules behind the earlier ones.
fn is_fine(earlier: &[Text], word: &str) -> bool
    ensures { result ≡ is_fine earlier.now word.now }
{
    let [first, earlier @ ..] = earlier else {
        return Job::named(word).is_some();
    };
    match (Job::named(first.as_str()), parts(word)) {
        (Some(job), Some(said)) => {
            job.takes(said.name)
                && value_in(said.name, earlier).is_none()
                && said.kind.fits(said.value)
        }
        _ => false,
    }
}

/// The index of the first word that breaks the rules.
fn first_bad(words: &[Text]) -> Option<usize>
    ensures fault { IfSome result (λ index. FineBelow words.now index × (index < length words.now) × (is_fine (take index words.now) (slice_index_or words.now index []) ≡ false)) }
    ensures none { IfNone result (FineBelow words.now (length words.now)) }
{
    for (index, word) in words.iter().enumerate() {
        if !is_fine(&words[..index], word.as_str()) {
            return Some(index);
        }
    }
    None
}

/// Whether a name is wanting that the job requires.
fn lacks_any(job: Job, words: &[Text]) -> bool
    ensures { result ≡ lacks_any job words.now }
{
    job.required()
        .iter()
        .any(|name| value_in(*name, words).is_none())
}

/// What the words of a job say that names no file.
#[derive(Clone, Copy, Debug)]
pub struct Settings {
    /// The ordinal of the module.
    pub ordinal: u64,
    /// GTIRB's number of the instruction set that the module must have.
    pub isa: u64,
    /// The most steps of a run.
    pub steps: u64,
    /// Where the constants of a generated program begin.
    pub seed: u64,
    /// The blocks of a generated program that add a constant.
    pub blocks: u64,
}

/// What a well-formed list of words asks for.
#[derive(Clone, Copy, Debug)]
pub struct Picked<'a> {
    pub job: Job,
    pub settings: Settings,
    /// The words behind the job.
    words: &'a [Text],
}

impl<'a> Picked<'a> {
    /// The name of the input file of a role, if a word gives it.
    pub fn file(&self, role: Role) -> Option<&'a str>
        ensures { option_map (λ name. name.now) result ≡ (picked_view self.now).file role }
    {
        value_in(role.word(), self.words)
    }

    /// What a word says of the flags that are plain, if there is one.
    pub fn plain(&self) -> Option<&'a str>
        ensures { option_map (λ text. text.now) result ≡ (picked_view self.now).plain }
    {
        value_in(WordName::Plain, self.words)
    }

    /// The name of the file that is written, if a word gives it.
    pub fn out(&self) -> Option<&'a str>
        ensures { option_map (λ name. name.now) result ≡ (picked_view self.now).out }
    {
        value_in(WordName::Out, self.words)
    }
}

/// The number that the words give a name, or the one that stands where none does.
fn number_in(name: WordName, bounds: Bounds, words: &[Text]) -> u64
    requires { IsWithin bounds bounds.unsaid }
    ensures value { result ≡ number_in name bounds words.now }
    ensures within { IsWithin bounds result }
{
    match value_in(name, words) {
        Some(text) => match bounds.number(text) {
            Some(number) => number,
            None => bounds.unsaid,
        },
        None => bounds.unsaid,
    }
}

/// What the words behind the job say that names no file.
fn settings_in(words: &[Text]) -> Settings
    ensures value { result ≡ settings_of words.now }
    ensures bounds { InBounds result }
{
    Settings {
        ordinal: number_in(WordName::Module, MODULE, words),
        isa: number_in(WordName::Isa, ISA, words),
        steps: number_in(WordName::Steps, STEPS, words),
        seed: number_in(WordName::Seed, SEED, words),
        blocks: number_in(WordName::Blocks, BLOCKS, words),
    }
}

/// What the words ask for, or the index of the first one that breaks the rules, or the number of words
/// where only a required one is missing.
pub fn parse_words(words: &[Text]) -> Result<Picked<'_>, u64>
    ensures ok { IfOk result (λ asked. WordsOk words.now) }
    ensures picked { IfOk result (λ asked. picked words.now ≡ Some (picked_view asked)) }
    ensures bounds { IfOk result (λ asked. InBounds asked.settings) }
    ensures usage { IfErr result (Usage words.now) }
{
    if let Some(index) = first_bad(words) {
        return Err(index as u64);
    }
    let short = Err(words.len() as u64);
    let [first, rest @ ..] = words else {
        return short;
    };
    match Job::named(first.as_str()) {
        Some(job) if !lacks_any(job, rest) => Ok(Picked {
            job,
            settings: settings_in(rest),
            words: rest,
        }),
        _ => short,
    }
}
