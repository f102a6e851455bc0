//! What the words of a command line ask for.
ghost use Rattle.std.specs.Prelude.{◌≡◌, ◌≤◌, None, Some, IfSome};
ghost use Rattle.std.specs.Option.{SomeIff};
ghost use Rattle.std.specs.Str.Parse.{IsNumeral, digits_value};

use crate::policy::{POLICY, Policy};
use bitflags::Flags;
use cmd_jobs::{Windows, decimal, window_count};
use sbx_run::Services;
use std::alloc::Global;
use std::convert::AsStr;
use std::fmt::{self, Display, Formatter, Write};
use want::Want;

/// What is told of words that ask how the program is called.
pub const USAGE: &str = "Usage: host run [OPTIONS] IMG ..
       host IMG ..

Runs images that strangers made, where each is accepted and asks for no more than is granted: else none is
run, and a line on standard error says which is denied, and why. Their outputs go to standard output in
turn. One image reads its input as it asks for it; several are run on the same input, which is read first.
`host IMG ..` tells what each image asks for, and how its run ended; it takes no options.

  --max-turns N       the most turns that an image may ask for (1000000000)
  --services LIST     what it may ask its host for, with commas between: exit, get, put (exit,get,put)
  --windows N         how many register windows the machine has, 4 to 32 (8)
  --engine            runs them on the fast flat machine: no board is made, and windows are counted
  --input FILE        what it reads, in the place of standard input
  --max-output BYTES  a run is stopped at the first byte that it puts out beyond so many
  --report json       an object for each image, a line each, on standard error
  --version           of the script ./host: the version, the commit of the sources, and the kit

Status 0: all ran, with the exit word 0. 1: one had another. 2: one is denied, or was stopped.
       3: wrong arguments. 4: a file, a stream or memory fails.
";

/// The most turns, and bytes of output, that words may ask for: no image has a greater budget, and a byte takes
/// five turns.
const MOST: u64 = 1_099_511_627_776;

/// What is told on standard error.
#[derive(Clone, Copy)]
pub enum Report {
    /// What each image asks for, how its run ended, and what is wrong: `host IMG ..`.
    Lines,
    /// What is wrong: `host run`.
    Faults,
    /// An object of JSON an image: `host run --report json`.
    Json,
}

/// What images are run under, and on what.
#[derive(Clone, Copy)]
pub struct Terms<'a> {
    /// What an image may ask for.
    pub policy: Policy,
    /// How many register windows the machine has.
    pub windows: Windows,
    /// Whether the machine is the flat one, which counts windows and makes none.
    pub engine: bool,
    /// The file that has the input; standard input where there is none.
    pub input: Option<&'a str>,
    /// The most bytes that an image may put out.
    pub most: u64,
    /// What is told of each image.
    pub report: Report,
}

impl<'a> Terms<'a> {
    /// What the input is called where it fails.
    pub fn input_name(&self) -> &'a str {
        match self.input {
            Some(path) => path,
            None => "input",
        }
    }
}

/// The terms where no word says otherwise.
const USUAL: Terms<'static> = Terms {
    policy: POLICY,
    windows: Windows::USUAL,
    engine: false,
    input: None,
    most: MOST,
    report: Report::Faults,
};

/// Images to be run, by their paths, and on what terms.
#[derive(Drop)]
pub struct Asked<'a> {
    pub terms: Terms<'a>,
    pub paths: Vec<&'a str>,
}

/// The name of an option.
#[derive(Clone, Copy)]
pub enum Name {
    Turns,
    Services,
    Windows,
    Input,
    Output,
    Report,
}

impl Name {
    /// The option that a word names.
    fn of(word: &str) -> Option<Name> {
        match word {
            "--max-turns" => Some(Name::Turns),
            "--services" => Some(Name::Services),
            "--windows" => Some(Name::Windows),
            "--input" => Some(Name::Input),
            "--max-output" => Some(Name::Output),
            "--report" => Some(Name::Report),
            _ => None,
        }
    }

    /// What the option wants behind its name.
    fn wanted(self) -> &'static str {
        match self {
            Name::Turns => "--max-turns wants a decimal number from 0 to 1099511627776",
            Name::Services =>
                "--services wants names of exit, get and put, with commas between them",
            Name::Windows => "--windows wants a decimal number from 4 to 32",
            Name::Input => "--input wants the path of a file",
            Name::Output => "--max-output wants a decimal number from 0 to 1099511627776",
            Name::Report => "--report wants the word json",
        }
    }
}

/// Why words ask for nothing. Its text says so in a line.
#[derive(Clone, Copy)]
pub enum Lack<'a> {
    /// They ask how the program is called, or say nothing.
    Usage,
    /// There is no image.
    Images,
    /// This word is no option.
    Unknown(&'a str),
    /// This option has no value, another than it may have, or two.
    Value(Name),
    /// Memory was refused.
    Memory(Want),
}

impl Display for Lack<'_> {
    fn fmt<W: Write>(&self, f: &mut Formatter<W>) -> fmt::Result {
        match self {
            Lack::Usage => f.write_str("host --help tells how it is called"),
            Lack::Images => f.write_str("the path of an image is wanted"),
            Lack::Unknown(word) => write!(f, "{word} is no option"),
            Lack::Value(name) => write!(f, "{}, once", name.wanted()),
            Lack::Memory(_) => f.write_str("memory"),
        }
    }
}

/// The options that stand among the words, and their texts.
#[derive(Clone, Copy)]
struct Options<'a> {
    turns: Option<&'a str>,
    services: Option<&'a str>,
    windows: Option<&'a str>,
    /// Whether the flat machine is named, which has no text.
    engine: bool,
    input: Option<&'a str>,
    output: Option<&'a str>,
    report: Option<&'a str>,
}

impl<'a> Options<'a> {
    /// No option.
    fn none() -> Self {
        Options {
            turns: None,
            services: None,
            windows: None,
            engine: false,
            input: None,
            output: None,
            report: None,
        }
    }

    /// Takes an option's text, of which there is to be one.
    fn take(&mut self, name: Name, text: &'a str) -> Result<(), Lack<'a>> {
        let place = match name {
            Name::Turns => &mut self.turns,
            Name::Services => &mut self.services,
            Name::Windows => &mut self.windows,
            Name::Input => &mut self.input,
            Name::Output => &mut self.output,
            Name::Report => &mut self.report,
        };
        match place.replace(text) {
            None => Ok(()),
            Some(_) => Err(Lack::Value(name)),
        }
    }
}

/// The number that an option's text spells; without a text the usual one.
fn number_in(text: Option<&str>, usual: u64) -> Option<u64>
    ensures given { IfSome text.entry (λ text. SomeIff result
        (IsNumeral 10 text.now × (digits_value 10 text.now ≤ 1099511627776)) (digits_value 10 text.now)) }
    ensures left_out { text.entry ≡ None → result ≡ Some usual }
{
    match text {
        Some(text) => decimal(text, MOST),
        None => Some(usual),
    }
}

/// The services that a text names, with commas between the names; without a text the usual ones.
fn services_in(text: Option<&str>, usual: Services) -> Option<Services> {
    let Some(text) = text else {
        return Some(usual);
    };
    let mut services = Services(0);
    for name in text.split(',') {
        services = match name {
            "exit" => services.union(Services::EXIT),
            "get" => services.union(Services::GET),
            "put" => services.union(Services::PUT),
            _ => return None,
        };
    }
    Some(services)
}

/// The report that a text names; without a text the usual one.
fn report_in(text: Option<&str>) -> Option<Report> {
    match text {
        None => Some(Report::Faults),
        Some("json") => Some(Report::Json),
        Some(_) => None,
    }
}

/// The terms that options give.
fn terms_of<'a>(options: &Options<'a>) -> Result<Terms<'a>, Name> {
    Ok(Terms {
        policy: Policy {
            services: services_in(options.services, POLICY.services).ok_or(Name::Services)?,
            turns: number_in(options.turns, POLICY.turns).ok_or(Name::Turns)?,
        },
        windows: window_count(options.windows).ok_or(Name::Windows)?,
        engine: options.engine,
        input: options.input,
        most: number_in(options.output, MOST).ok_or(Name::Output)?,
        report: report_in(options.report).ok_or(Name::Report)?,
    })
}

/// What words that follow one another say.
#[derive(Drop)]
struct Reading<'a> {
    options: Options<'a>,
    paths: Vec<&'a str>,
    /// The option whose value the next word is.
    wanted: Option<Name>,
}

impl<'a> Reading<'a> {
    /// Takes a word that is no option's value: an option, with its value behind `=` or in the next word, or without
    /// one, or a path.
    fn take_first(&mut self, word: &'a str) -> Result<(), Lack<'a>> {
        if let Some((name, text)) = word.split_once('=')
            && let Some(name) = Name::of(name)
        {
            return self.options.take(name, text);
        }
        match Name::of(word) {
            Some(name) => self.wanted = Some(name),
            None if word == "--engine" => self.options.engine = true,
            None if word.starts_with("--") => return Err(Lack::Unknown(word)),
            None => match self.paths.push(word) {
                Ok(()) => {}
                Err(failed) => return Err(Lack::Memory(Want::from(failed))),
            },
        }
        Ok(())
    }

    /// Takes the next word.
    fn take(&mut self, word: &'a str) -> Result<(), Lack<'a>> {
        match self.wanted.take() {
            Some(name) => self.options.take(name, word),
            None => self.take_first(word),
        }
    }
}

/// What the words behind `run` ask for.
fn read_run<'a, S: AsStr>(alloc: Global, words: &'a [S]) -> Result<Asked<'a>, Lack<'a>> {
    let mut reading = Reading {
        options: Options::none(),
        paths: Vec::new(alloc),
        wanted: None,
    };
    for word in words {
        reading.take(word.as_str())?;
    }
    let Reading {
        options,
        paths,
        wanted,
    } = reading;
    if let Some(name) = wanted {
        return Err(Lack::Value(name));
    }
    let terms = match terms_of(&options) {
        Ok(terms) => terms,
        Err(name) => return Err(Lack::Value(name)),
    };
    if paths.is_empty() {
        return Err(Lack::Images);
    }
    Ok(Asked { terms, paths })
}

/// Paths alone, and the terms where none are given.
fn read_paths<'a, S: AsStr>(alloc: Global, words: &'a [S]) -> Result<Asked<'a>, Lack<'a>> {
    let mut paths = Vec::new(alloc);
    for word in words {
        match paths.push(word.as_str()) {
            Ok(()) => {}
            Err(failed) => return Err(Lack::Memory(Want::from(failed))),
        }
    }
    let terms = Terms {
        report: Report::Lines,
        ..USUAL
    };
    Ok(Asked { terms, paths })
}

/// What the words after the program's name ask for.
pub fn read_words<'a, S: AsStr>(alloc: Global, words: &'a [S]) -> Result<Asked<'a>, Lack<'a>> {
    let Some((first, rest)) = words.split_first() else {
        return Err(Lack::Usage);
    };
    match first.as_str() {
        "run" => read_run(alloc, rest),
        "help" => Err(Lack::Usage),
        word if word.starts_with('-') => Err(Lack::Usage),
        _ => read_paths(alloc, words),
    }
}
