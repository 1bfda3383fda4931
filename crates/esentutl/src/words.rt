//! The words that the program is called with.

ghost use Rattle.std.specs.Prelude.{◌≡◌};
ghost use Rattle.script_words.specs.Words.{number_within};
ghost use Rattle.esentutl.specs.Words.{form_of, form_of_depth, form_of_mode, form_of_options, inspection_of, run_with, words_of};

use script_words::numbers::number_within;

/// The limit of the version store's span where no word names one, in bytes.
pub const DEFAULT_SPAN_LIMIT: u64 = 4_194_304;

/// The least limit that a word may name.
const LEAST_SPAN_LIMIT: u64 = 4_096;

/// The greatest limit that a word may name.
const GREATEST_SPAN_LIMIT: u64 = 67_108_864;

/// The depth of the log where no word names one, in bytes.
pub const DEFAULT_DEPTH: u64 = 1_048_576;

/// The least depth that a word may name.
const LEAST_DEPTH: u64 = 1;

/// The greatest depth that a word may name.
const GREATEST_DEPTH: u64 = 4_194_304;

/// What the program tells of itself.
#[derive(Clone, Copy, Debug, PartialEq, Eq)]
pub enum Topic {
    /// How it is called.
    Help,
    /// Its name, and which file format it writes.
    Version,
}

/// What a run is asked with.
#[derive(Clone, Copy, Debug, PartialEq, Eq)]
pub struct RunOptions {
    /// The limit of the version store's span, in bytes.
    pub span_limit: u64,
    /// Where as many bytes of the log as this stand behind a checkpoint after a flush, another one follows.
    pub depth: u64,
}

/// What is asked to be told of a volume that is only looked at.
#[derive(Clone, Copy, Debug, PartialEq, Eq)]
pub enum Inspection {
    /// Whether the database was closed well, its format, and what it recovers to.
    Header,
    /// The number of the checkpoint that stands, where the log goes on behind it, and its pages.
    Checkpoint,
    /// The entries of the log behind that checkpoint.
    Log,
    /// The pages and the trees of the database that is recovered.
    Space,
    /// Whether the image of the checkpoint is consistent, and what is found first of it where it is not.
    Integrity,
}

/// What the words ask for.
#[derive(Clone, Copy, Debug, PartialEq, Eq)]
pub enum Form {
    /// `VOLUME run ordered`, then `versions N` or not, then `depth N` or not: run the script in its order, over the volume.
    OrderedRun(RunOptions),
    /// `VOLUME /r`: recover the volume, and write a checkpoint.
    Recovery,
    /// `VOLUME /mh`, `/mk`, `/ml`, `/ms` or `/g`: look at the volume, and write nothing to it.
    Inspection(Inspection),
    /// `--help` or `--version` alone: print a text, and read nothing.
    About(Topic),
    /// They are of no form.
    Unknown,
}

/// The form that the words are of.
pub fn form_of_words(words: &[String]) -> Form
    ensures { result ≡ form_of (words_of words.now) }
{
    match words {
        [word] => {
            if word.as_str() == "--help" {
                Form::About(Topic::Help)
            } else if word.as_str() == "--version" {
                Form::About(Topic::Version)
            } else {
                Form::Unknown
            }
        }
        [_, mode] => form_of_mode(mode.as_str()),
        [_, mode, order, options @ ..] => {
            if mode.as_str() == "run" && order.as_str() == "ordered" {
                read_options(options)
            } else {
                Form::Unknown
            }
        }
        _ => Form::Unknown,
    }
}

/// The form of a word behind that of the volume.
fn form_of_mode(mode: &str) -> Form
    ensures { result ≡ form_of_mode mode.now }
{
    if mode == "/r" {
        Form::Recovery
    } else {
        match read_inspection(mode) {
            Some(asked) => Form::Inspection(asked),
            None => Form::Unknown,
        }
    }
}

/// What the word asks to be told of a volume.
fn read_inspection(mode: &str) -> Option<Inspection>
    ensures { result ≡ inspection_of mode.now }
{
    if mode == "/mh" {
        Some(Inspection::Header)
    } else if mode == "/mk" {
        Some(Inspection::Checkpoint)
    } else if mode == "/ml" {
        Some(Inspection::Log)
    } else if mode == "/ms" {
        Some(Inspection::Space)
    } else if mode == "/g" {
        Some(Inspection::Integrity)
    } else {
        None
    }
}

/// The run that the words behind `ordered` ask for.
fn read_options(options: &[String]) -> Form
    ensures { result ≡ form_of_options (words_of options.now) }
{
    match options {
        [name, number, rest @ ..] => {
            if name.as_str() == "versions" {
                read_run(read_span_limit(number.as_str()), rest)
            } else {
                read_run(Some(DEFAULT_SPAN_LIMIT), options)
            }
        }
        _ => read_run(Some(DEFAULT_SPAN_LIMIT), options),
    }
}

/// The run that is asked for with this limit and the words behind it.
fn read_run(span_limit: Option<u64>, options: &[String]) -> Form
    ensures { result ≡ form_of_depth span_limit (words_of options.now) }
{
    match options {
        [] => ordered_run(span_limit, Some(DEFAULT_DEPTH)),
        [name, number] => {
            if name.as_str() == "depth" {
                ordered_run(span_limit, read_depth(number.as_str()))
            } else {
                Form::Unknown
            }
        }
        _ => Form::Unknown,
    }
}

/// A run with these numbers, if each word that names one stands for one.
fn ordered_run(span_limit: Option<u64>, depth: Option<u64>) -> Form
    ensures { result ≡ run_with span_limit depth }
{
    match (span_limit, depth) {
        (Some(span_limit), Some(depth)) => Form::OrderedRun(RunOptions { span_limit, depth }),
        _ => Form::Unknown,
    }
}

/// The limit that the word stands for.
fn read_span_limit(word: &str) -> Option<u64>
    ensures { result ≡ number_within 4096 67108864 word.now }
{
    match number_within(LEAST_SPAN_LIMIT, GREATEST_SPAN_LIMIT, word.as_bytes()) {
        Ok(limit) => Some(limit),
        Err(_) => None,
    }
}

/// The depth that the word stands for.
fn read_depth(word: &str) -> Option<u64>
    ensures { result ≡ number_within 1 4194304 word.now }
{
    match number_within(LEAST_DEPTH, GREATEST_DEPTH, word.as_bytes()) {
        Ok(depth) => Some(depth),
        Err(_) => None,
    }
}
