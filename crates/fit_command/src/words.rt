//! The words of a command line.

use std::alloc::Global;
use std::fmt::{self, Display, Formatter, Write};

/// The turns that a run may take where the words say nothing.
pub const TURNS: u64 = 1_000_000_000;

/// The bytes of the stack of functions that may be called again before they return, where the words say nothing.
pub const STACK: u32 = 16_384;

/// The least and the most that it may have, powers of 2.
const STACKS: (u32, u32) = (1_024, 131_072);

/// The most turns that may be asked for.
const MOST: u64 = 1_000_000_000_000;

/// What is printed where words ask how the program is called.
pub const USAGE: &str =
    "Usage: fit SRC.s.. [-o OUT.s] [--image OUT.img] [--turns N] [--stack BYTES] [--strict] [--region]
       fit annotate SRC.s [-o OUT.s] [--strict]

Turns compiler-made SPARC assembly, the files as one program, into an annotated source
that `sandbox asm` and `sandbox verify` accept. What isn't shown is tested at run time.

  -o OUT.s     where the source goes; - is standard output
  --image OUT.img  assembles and verifies what was made, and writes the image where it is accepted;
               without -o no source is written then
  --turns N    the turns that a run may take in all (1000000000), up to 10^12: the image declares them
  --stack BYTES  the stack of functions that call each other in a round, or that are called
               through pointers (16384): a power of 2 from 1024 to 131072
  --strict     where a test would be added, nothing is made
  --region     an access has to lie in the data, and not in the object that it names

fit annotate takes a source in the project's own language, and gives it the annotations that it
hasn't got: cells, fuel, params, results, and a number for each 0 that stands for a function's
stack or budget. Nothing else changes. What isn't shown is noted, with its line and what to write;
with --strict no source is made then. Without -o it goes to standard output.

Status 0: made. 1: a test would be added, or something isn't shown, and --strict says no.
2: refused, with a line and a reason. 3: wrong arguments. 4: a file can't be read or written. 5: memory.
6: what was made isn't accepted, and no image is written.
";

/// An option that has a value.
#[derive(Clone, Copy)]
pub enum ValuedOption {
    Out,
    Image,
    Turns,
    Stack,
}

impl ValuedOption {
    /// The option that a word names.
    fn of(word: &str) -> Option<ValuedOption> {
        match word {
            "-o" => Some(ValuedOption::Out),
            "--image" => Some(ValuedOption::Image),
            "--turns" => Some(ValuedOption::Turns),
            "--stack" => Some(ValuedOption::Stack),
            _ => None,
        }
    }

    /// What the option wants behind its name.
    fn wanted(self) -> &'static str {
        match self {
            ValuedOption::Out => "-o wants the path of a file",
            ValuedOption::Image => "--image wants the path of a file",
            ValuedOption::Turns => "--turns wants a decimal number from 1 to 1000000000000",
            ValuedOption::Stack => "--stack wants a power of 2 from 1024 to 131072",
        }
    }
}

/// Why words ask for nothing. Its text says so in a line.
#[derive(Clone, Copy)]
pub enum ArgumentFault<'a> {
    /// They ask how the program is called, or say nothing.
    Usage,
    /// This word is no option.
    Unknown(&'a str),
    /// This option has no value, another than it may have, or two.
    Value(ValuedOption),
    /// There is no source.
    Sources,
    /// There is no place for what is made.
    Out,
    /// `fit annotate` has another number of sources than one.
    OneSource,
    /// `fit annotate` has an option that it doesn't take.
    OfOther(&'static str),
    /// Memory was refused.
    Memory,
}

impl Display for ArgumentFault<'_> {
    fn fmt<W: Write>(&self, f: &mut Formatter<W>) -> fmt::Result {
        match self {
            ArgumentFault::Usage => f.write_str("fit --help tells how it is called"),
            ArgumentFault::Unknown(word) => write!(f, "{word} is no option"),
            ArgumentFault::Value(name) => write!(f, "{}, once", name.wanted()),
            ArgumentFault::Sources => f.write_str("the path of a source is wanted"),
            ArgumentFault::Out => f.write_str("-o or --image, and the path of a file, are wanted"),
            ArgumentFault::OneSource => f.write_str("annotate wants the path of one source"),
            ArgumentFault::OfOther(name) => write!(f, "annotate takes no {name}"),
            ArgumentFault::Memory => f.write_str("memory"),
        }
    }
}

/// What words give, each but sources at most once.
#[derive(Drop)]
pub struct Arguments<'a> {
    pub sources: Vec<&'a str>,
    pub out: Option<&'a str>,
    pub image: Option<&'a str>,
    pub turns: Option<u64>,
    pub stack: Option<u32>,
    pub is_strict: bool,
    pub by_region: bool,
}

/// The turns that a text spells, if a run may take so many.
fn turns_in(text: &str) -> Option<u64> {
    match text.parse::<u64>() {
        Ok(turns) if 0 < turns && turns <= MOST => Some(turns),
        _ => None,
    }
}

/// The bytes that a text spells, if a stack may have so many.
fn stack_in(text: &str) -> Option<u32> {
    let (least, most) = STACKS;
    match text.parse::<u32>() {
        Ok(bytes) if bytes.is_power_of_two() && least <= bytes && bytes <= most => Some(bytes),
        _ => None,
    }
}

impl<'a> Arguments<'a> {
    /// Those of no words.
    pub fn new(alloc: Global) -> Arguments<'a> {
        Arguments {
            sources: Vec::new(alloc),
            out: None,
            image: None,
            turns: None,
            stack: None,
            is_strict: false,
            by_region: false,
        }
    }

    /// Takes an option's text, of which there is to be one.
    fn take_value(&mut self, name: ValuedOption, text: &'a str) -> Result<(), ArgumentFault<'a>> {
        match name {
            ValuedOption::Out if self.out.is_none() => self.out = Some(text),
            ValuedOption::Image if self.image.is_none() => self.image = Some(text),
            ValuedOption::Turns if self.turns.is_none() => self.turns = turns_in(text),
            ValuedOption::Stack if self.stack.is_none() => self.stack = stack_in(text),
            _ => return Err(ArgumentFault::Value(name)),
        }
        let is_taken = match name {
            ValuedOption::Out | ValuedOption::Image => true,
            ValuedOption::Turns => self.turns.is_some(),
            ValuedOption::Stack => self.stack.is_some(),
        };
        if is_taken {
            Ok(())
        } else {
            Err(ArgumentFault::Value(name))
        }
    }

    /// Takes a word that is no option's value, and says of which option the next one is.
    fn take_word(&mut self, word: &'a str) -> Result<Option<ValuedOption>, ArgumentFault<'a>> {
        let wanted = ValuedOption::of(word);
        match word {
            _ if wanted.is_some() => {}
            "--strict" => self.is_strict = true,
            "--region" => self.by_region = true,
            "--help" | "-h" => return Err(ArgumentFault::Usage),
            _ if matches!(word.as_bytes(), [b'-', ..]) => return Err(ArgumentFault::Unknown(word)),
            source => {
                if self.sources.push(source).is_err() {
                    return Err(ArgumentFault::Memory);
                }
            }
        }
        Ok(wanted)
    }

    /// Takes the words after the program's name, or those after `annotate`.
    pub fn take(&mut self, words: &'a [String]) -> Result<(), ArgumentFault<'a>> {
        let mut wanted = None;
        for word in words {
            wanted = match wanted {
                Some(name) => {
                    self.take_value(name, word.as_str())?;
                    None
                }
                None => self.take_word(word.as_str())?,
            };
        }
        match wanted {
            Some(name) => Err(ArgumentFault::Value(name)),
            None => Ok(()),
        }
    }

    /// Whether they say all of which one source is made.
    pub fn ask_for_source(&self) -> Result<(), ArgumentFault<'a>> {
        if self.sources.is_empty() {
            return Err(ArgumentFault::Sources);
        }
        match (self.out, self.image) {
            (None, None) => Err(ArgumentFault::Out),
            _ => Ok(()),
        }
    }

    /// The source that `fit annotate` is to annotate.
    pub fn source_to_annotate(&self) -> Result<&'a str, ArgumentFault<'a>> {
        if self.turns.is_some() {
            return Err(ArgumentFault::OfOther("--turns"));
        }
        if self.stack.is_some() {
            return Err(ArgumentFault::OfOther("--stack"));
        }
        if self.by_region {
            return Err(ArgumentFault::OfOther("--region"));
        }
        if self.image.is_some() {
            return Err(ArgumentFault::OfOther("--image"));
        }
        match self.sources.as_slice() {
            [source] => Ok(*source),
            _ => Err(ArgumentFault::OneSource),
        }
    }
}
