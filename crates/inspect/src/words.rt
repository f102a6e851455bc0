//! What the words of a command line ask for.
ghost use Rattle.std.specs.Prelude.{IfSome};
ghost use Rattle.inspect.specs.Jobs.{IsInRange};

use crate::cycles::cycles;
use crate::machine::InspectSetting;
use cmd_command::{Windows, turns, window_count};
use inspect_start::address;
use std::convert::AsStr;

/// What is told is for people, or for programs.
#[derive(Clone, Copy, PartialEq, Eq)]
pub enum Form {
    /// Lines to be read.
    Text,
    /// One line that is a JSON object.
    Json,
}

/// One thing to tell of an image file.
#[derive(Clone, Copy)]
pub enum InspectJob<'a> {
    /// What it declares.
    Image {
        image: &'a str,
        form: Form,
    },
    /// Its run on so many register windows, up to a limit of turns.
    Run {
        image: &'a str,
        windows: Windows,
        limit: u64,
        form: Form,
    },
    /// The turns of its run on so many register windows, up to a limit of them.
    Trace {
        image: &'a str,
        windows: Windows,
        limit: u64,
    },
    /// The states of its run on so many register windows, up to a limit of turns.
    States {
        image: &'a str,
        windows: Windows,
        limit: u64,
    },
    /// The data of the page of its run on so many register windows, up to a limit of turns.
    Data {
        image: &'a str,
        windows: Windows,
        limit: u64,
    },
    /// The states of a machine of one's own, which the lines of a file set.
    Machine {
        file: &'a str,
        setting: InspectSetting<'a>,
    },
    /// Why it is refused.
    Why {
        image: &'a str,
        form: Form,
    },
}

/// What is told of words that ask for nothing.
pub const USAGE: &str =
    "Usage: inspect COMMAND [--windows N] [--limit T] [--json] [--source SRC] FILE

  image IMG    tells what an image declares, in the source language's own words
  run IMG      runs any image on standard input and tells what it put out, how it ended,
               its turns and its pages
  trace IMG    runs any image on standard input and tells each turn: place, instruction,
               and what it changed
  states IMG   runs any image on standard input and tells the processor's state a turn, for
               programs: registers, word, event, and what changed
  data IMG     runs any image on standard input and tells the data of its page, which
               `inspect page` makes of them
  machine FILE runs words in RAM from any state, as FILE says, with no board, and tells its
               states, and the words of RAM that changed
  why IMG      tells why an image is refused: the rule, the word, and what is known there
  check SRC    tells what is wrong with a source: each line's first fault, or the rule that
               its image breaks, at the line
  map SRC      tells where the lines and the labels of a source stand in its image
  cycles IMG   tells what no run of an accepted image takes more than, in cycles, by a table of
               a processor's worst cases, and the dearest piece of each block
  --version    of the script ./inspect: the version, the commit of the sources, and the kit

run, trace, states, data, machine: --windows N is the count of register windows, 4 to 32 (8);
                                   --limit T the most turns, 0 to 9999999999 (100000).
machine: --binary BIN puts the bytes of BIN into RAM, from --at ADDRESS on (0).
image, run, why, check: --json tells all of it in one line, a JSON object.
image, trace, why: --source SRC tells it by the names and the lines of its source, or of the
                   map that `inspect map` made of it.
data: --source SRC tells the lines of its source too, and its names.
cycles: --table FILE is the table, --max-cycles N what the bound may be at most, in decimal.
Status 0: told. 1: the bound of cycles is greater. 2: no image. 3: wrong arguments. 4: a file,
the input or the output fails. 5: memory.
";

/// What the number of windows is.
const WINDOWS: &str = "--windows wants a decimal number from 4 to 32";

/// What the limit of turns is.
const LIMIT: &str = "--limit wants a decimal number from 0 to 9999999999";

/// What the most cycles are.
const CYCLES: &str = "--max-cycles wants a decimal number from 0 to 18446744073709551615";

/// What the address of a binary is.
const AT: &str = "--at wants an address, as 0x4000";

/// What the words after the command give, each at most once.
#[derive(Clone, Copy)]
struct Options<'a> {
    image: Option<&'a str>,
    windows: Option<&'a str>,
    limit: Option<&'a str>,
    binary: Option<&'a str>,
    at: Option<&'a str>,
    form: Form,
}

/// What the next word is.
#[derive(Clone, Copy)]
enum Next {
    /// A path, or the name of a number.
    Any,
    /// A count of windows.
    Windows,
    /// A limit of turns.
    Limit,
    /// The path of a binary.
    Binary,
    /// An address.
    At,
}

/// Puts a word where none is yet.
fn put<'a>(place: &mut Option<&'a str>, word: &'a str) -> Option<Next> {
    match place {
        Some(_) => None,
        None => {
            *place = Some(word);
            Some(Next::Any)
        }
    }
}

impl<'a> Options<'a> {
    /// Takes the word for JSON, which stands there once at most.
    fn take_json(&mut self) -> Option<Next> {
        if self.form == Form::Json {
            return None;
        }
        self.form = Form::Json;
        Some(Next::Any)
    }

    /// Takes a word, and says what the one after it is; nothing where the word has no place.
    fn take(&mut self, next: Next, word: &'a str) -> Option<Next> {
        match next {
            Next::Windows => put(&mut self.windows, word),
            Next::Limit => put(&mut self.limit, word),
            Next::Binary => put(&mut self.binary, word),
            Next::At => put(&mut self.at, word),
            Next::Any => match word {
                "--windows" => Some(Next::Windows),
                "--limit" => Some(Next::Limit),
                "--binary" => Some(Next::Binary),
                "--at" => Some(Next::At),
                "--json" => self.take_json(),
                path => put(&mut self.image, path),
            },
        }
    }
}

/// What the words after the command give; nothing where one of them has no place, or a number lacks.
fn options_of<S: AsStr>(words: &[S]) -> Option<Options<'_>> {
    let mut options = Options {
        image: None,
        windows: None,
        limit: None,
        binary: None,
        at: None,
        form: Form::Text,
    };
    let mut next = Next::Any;
    for word in words {
        next = options.take(next, word.as_str())?;
    }
    match next {
        Next::Any => Some(options),
        Next::Windows | Next::Limit | Next::Binary | Next::At => None,
    }
}

/// The job of a command that has numbers.
fn numbered<'a>(command: &str, image: &'a str, options: &Options<'a>) -> Option<InspectJob<'a>>
    ensures { IfSome result IsInRange }
{
    let windows = window_count(options.windows)?;
    let limit = turns(options.limit)?;
    match (command, options.form) {
        ("run", form) => Some(InspectJob::Run {
            image,
            windows,
            limit,
            form,
        }),
        ("trace", Form::Text) => Some(InspectJob::Trace {
            image,
            windows,
            limit,
        }),
        ("states", Form::Text) => Some(InspectJob::States {
            image,
            windows,
            limit,
        }),
        ("data", Form::Text) => Some(InspectJob::Data {
            image,
            windows,
            limit,
        }),
        _ => None,
    }
}

/// The address that a text gives; 0 without a text.
fn place(text: Option<&str>) -> Option<u64> {
    match text {
        Some(text) => address(text),
        None => Some(0),
    }
}

/// The job of a machine of one's own. An address is that of a binary.
fn machine_job<'a>(file: &'a str, options: &Options<'a>) -> Option<InspectJob<'a>>
    ensures { IfSome result IsInRange }
{
    let windows = window_count(options.windows)?;
    let limit = turns(options.limit)?;
    let at = place(options.at)?;
    match (options.form, options.binary, options.at) {
        (Form::Json, _, _) | (Form::Text, None, Some(_)) => None,
        (Form::Text, binary, _) => Some(InspectJob::Machine {
            file,
            setting: InspectSetting {
                windows,
                limit,
                binary,
                at,
            },
        }),
    }
}

/// The job of a command with its options.
fn job_of<'a>(command: &str, image: &'a str, options: &Options<'a>) -> Option<InspectJob<'a>>
    ensures { IfSome result IsInRange }
{
    if command == "machine" {
        return machine_job(image, options);
    }
    if options.binary.is_some() || options.at.is_some() {
        return None;
    }
    let form = options.form;
    match (command, options.windows, options.limit) {
        ("image", None, None) => Some(InspectJob::Image { image, form }),
        ("why", None, None) => Some(InspectJob::Why { image, form }),
        _ => numbered(command, image, options),
    }
}

/// The job that the words after the program's name ask for.
pub fn read_words<S: AsStr>(words: &[S]) -> Option<InspectJob<'_>>
    ensures { IfSome result IsInRange }
{
    let (command, rest) = words.split_first()?;
    let options = options_of(rest)?;
    job_of(command.as_str(), options.image?, &options)
}

/// What is told where words ask for nothing since one of them isn't the number that it stands for.
pub fn number_wanted<S: AsStr>(words: &[S]) -> Option<&'static str> {
    let mut before = "";
    for word in words {
        let word = word.as_str();
        match before {
            "--windows" if window_count(Some(word)).is_none() => return Some(WINDOWS),
            "--limit" if turns(Some(word)).is_none() => return Some(LIMIT),
            "--at" if address(word).is_none() => return Some(AT),
            "--max-cycles" if cycles(word).is_none() => return Some(CYCLES),
            _ => before = word,
        }
    }
    match before {
        "--windows" => Some(WINDOWS),
        "--limit" => Some(LIMIT),
        "--at" => Some(AT),
        "--max-cycles" => Some(CYCLES),
        _ => None,
    }
}
