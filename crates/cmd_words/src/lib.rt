//! What the words of a command line ask for.
#![tactic(auto)]

ghost use Rattle.std.specs.Prelude.{◌≡◌, ◌≢◌, ℕ, false, [], ◌∷◌, None, IfErr, IfOk, IsErr, codes, map};
ghost use Rattle.clap.specs.Words.{app_of, fault_of, first_of, found_of, kind_of, rows_of, rule_of, subcommand_of};
ghost use Rattle.clap.specs.Words.{subcommand_rows_of};
ghost use Rattle.cmd_jobs.specs.declared.jobs.Job.{Job};
ghost use Rattle.cmd_jobs.specs.Jobs.{IsInRange};
ghost use Rattle.want.specs.Wants.{refused};
ghost use Rattle.cmd_words.specs.Lines.{Adds, AskFor, HasLimit, HasPath, HasWindows, IsAlone, IsText, IsTrueOfWords};
ghost use Rattle.cmd_words.specs.Lines.{Means, MeansJob, Takes, asm_shape, bare_shape, image_rule, number_rule};
ghost use Rattle.cmd_words.specs.Lines.{path_rule, run_shape, sandbox_app, shape_with, trace_shape};

mod starved;

use clap::error::ErrorKind;
use clap::{Arg, ArgAction, ArgMatches, Command, Error};
pub use cmd_jobs::{Job, Windows};
use cmd_jobs::{turns, window_count};
pub use starved::Starved;
use std::alloc::{AllocError, Global};
use std::convert::AsStr;
use want::Want;

/// Why there is nothing to do.
#[derive(Drop)]
pub enum Usage {
    /// The words ask for nothing: the text that says so.
    Text(String),
    /// Memory was refused.
    Memory(Want),
    /// `clap` had no memory.
    NoRoom(Starved),
}

impl From<AllocError> for Usage {
    ghost use Rattle.cmd_words.specs.declared.Usage.{Usage};

    ghost from_gives = { λ _ usage. usage ≡ Usage.Memory refused };

    fn from(error: AllocError) -> Usage {
        Usage::Memory(Want::from(error))
    }
}

/// What the words lack.
#[derive(Clone, Copy)]
enum Lack {
    /// A command, or a path that it needs.
    Command,
    /// A count of windows in its range.
    Windows,
    /// A limit of turns in its range.
    Limit,
}

/// The text of what `clap` refused.
fn usage_of(alloc: Global, error: &Error) -> Usage
    ensures { IsText result → kind_of error.now ≢ ErrorKind.OutOfMemory }
{
    if let Some(starved) = Starved::of(error) {
        return Usage::NoRoom(starved);
    }
    match format!(in alloc; "{error}") {
        Ok(text) => Usage::Text(text),
        Err(error) => Usage::from(error),
    }
}

/// The text of what the words lack.
fn usage_of_lack(alloc: Global, lack: Lack) -> Usage {
    let wanted = match lack {
        Lack::Command => "a command with its paths is needed",
        Lack::Windows => "N is a decimal number from 4 to 32",
        Lack::Limit => "T is a decimal number from 0 to 9999999999",
    };
    match format!(in alloc; "error: {wanted}\n") {
        Ok(text) => Usage::Text(text),
        Err(error) => Usage::from(error),
    }
}

/// A path that has to be there.
fn path<'a>(alloc: Global, name: &'a str, help: &'a str) -> Arg<'a>
    ensures rule { rule_of result ≡ path_rule name.entry.now }
    ensures local { result.global ≡ false }
{
    Arg::new(alloc, name)
        .help(help)
        .required(true)
        .action(ArgAction::Set)
}

/// A number that may be there.
fn number<'a>(alloc: Global, name: &'a str, value: &'a str, help: &'a str) -> Arg<'a>
    ensures rule { rule_of result ≡ number_rule name.entry.now }
    ensures local { result.global ≡ false }
{
    Arg::new(alloc, name)
        .long(name)
        .value_name(value)
        .help(help)
        .action(ArgAction::Set)
}

/// What the path of an image is.
const IMG: &str = "The image file, as asm makes one";

/// What the count of windows is.
const WINDOWS: &str = "How many register windows the machine has, 4 to 32; 8 where it is left out";

/// What the limit of turns is.
const LIMIT: &str = "The most turns, 0 to 9999999999; 100000 where it is left out";

/// What `asm` does.
const ASM: &str =
    "Assembles a source to an image. OUT is made, or replaced, only where the source means an image";

/// What `verify` does.
const VERIFY: &str =
    "Verifies an image: prints accepted, or tells the first word that breaks a rule";

/// What `run` does.
const RUN: &str =
    "Verifies an image, then runs it from standard input, which is read as the program asks for it, to standard output";

/// What `list` does.
const LIST: &str = "Prints address, word and text of each word of an image's code";

/// What `trace` does.
const TRACE: &str =
    "Runs an image, accepted or not, on standard input, which is read whole first, and prints a line a turn";

/// A command that has one path or number.
fn of<'a>(
    alloc: Global,
    name: &'a str,
    about: &'a str,
    first: Arg<'a>,
) -> Result<Command<'a>, AllocError>
    requires { first.global ≡ false }
    ensures { IfOk result (IsAlone (shape_with name.entry.now (rule_of first.entry ∷ []))) }
{
    Command::new(alloc, name).about(about).arg(first)
}

/// A command that has one path or number more, if there was memory for it.
fn with<'a>(
    command: Result<Command<'a>, AllocError>,
    more: Arg<'a>,
) -> Result<Command<'a>, AllocError>
    ensures { IfOk result (λ made. Takes command.entry more.entry made) }
{
    command?.arg(more)
}

/// The command that assembles a source.
fn asm<'a>(alloc: Global) -> Result<Command<'a>, AllocError>
    ensures { IfOk result (IsAlone asm_shape) }
{
    let source = of(alloc, "asm", ASM, path(alloc, "SRC", "The source file"));
    with(source, path(alloc, "OUT", "The image file that is made"))
}

/// A command that has the path of an image, and nothing else.
fn of_image<'a>(alloc: Global, name: &'a str, about: &'a str) -> Result<Command<'a>, AllocError>
    ensures { IfOk result (IsAlone (shape_with name.entry.now (image_rule ∷ []))) }
{
    of(alloc, name, about, path(alloc, "IMG", IMG))
}

/// The command that runs an image.
fn run<'a>(alloc: Global) -> Result<Command<'a>, AllocError>
    ensures { IfOk result (IsAlone run_shape) }
{
    let windows = of(alloc, "run", RUN, number(alloc, "windows", "N", WINDOWS));
    with(windows, path(alloc, "IMG", IMG))
}

/// The command that traces an image.
fn trace<'a>(alloc: Global) -> Result<Command<'a>, AllocError>
    ensures { IfOk result (IsAlone trace_shape) }
{
    let windows = number(alloc, "windows", "N", WINDOWS);
    let limit = number(alloc, "limit", "T", LIMIT);
    let limited = with(of(alloc, "trace", TRACE, windows), limit);
    with(limited, path(alloc, "IMG", IMG))
}

/// The sandbox without its commands.
fn bare<'a>(alloc: Global) -> Result<Command<'a>, AllocError>
    ensures { IfOk result (IsAlone bare_shape) }
{
    Command::new(alloc, "sandbox")
        .about("Assembles, verifies and runs sandboxed SPARC V8 programs")
        .no_binary_name(true)
        .subcommand_required(true)
        .bin_name("sandbox")
}

/// A command with one more below it, if there was memory for both.
fn add<'a>(
    command: Result<Command<'a>, AllocError>,
    below: Result<Command<'a>, AllocError>,
) -> Result<Command<'a>, AllocError>
    ensures { IfOk result (λ added. Adds command.entry below.entry added) }
{
    command?.subcommand(below?)
}

/// The whole command line.
fn sandbox<'a>(alloc: Global) -> Result<Command<'a>, AllocError>
    ensures { IfOk result (λ c. app_of c ≡ sandbox_app) }
{
    let assembling = add(bare(alloc), asm(alloc));
    let verifying = add(assembling, of_image(alloc, "verify", VERIFY));
    let running = add(verifying, run(alloc));
    let listing = add(running, of_image(alloc, "list", LIST));
    add(listing, trace(alloc))
}

/// The path of this name.
fn path_in<'a>(name: &str, found: &ArgMatches<'a>) -> Result<&'a str, Lack>
    ensures there { IfOk result (λ path. HasPath name.now (rows_of (found_of found.now)) path.now) }
    ensures missing { IsErr result → first_of name.now (rows_of (found_of found.now)) ≡ None }
{
    found.get_str(name).ok_or(Lack::Command)
}

/// The count of windows.
fn windows_in(found: &ArgMatches<'_>) -> Result<Windows, Lack>
    ensures given { IfOk result (HasWindows (rows_of (found_of found.now))) }
    ensures other { IsErr result → (windows : ℕ) → HasWindows (rows_of (found_of found.now)) windows → ⊥ }
{
    window_count(found.get_str("windows")).ok_or(Lack::Windows)
}

/// The limit of turns.
fn limit_in(found: &ArgMatches<'_>) -> Result<u64, Lack>
    ensures given { IfOk result (HasLimit (rows_of (found_of found.now))) }
    ensures other { IsErr result → (limit : ℕ) → HasLimit (rows_of (found_of found.now)) limit → ⊥ }
{
    turns(found.get_str("limit")).ok_or(Lack::Limit)
}

/// The job of a command that has an image.
fn image_job<'a>(name: &str, found: &ArgMatches<'a>) -> Result<Job<'a>, Lack>
    requires { name.now ≢ codes "asm" }
    ensures job { IfOk result (MeansJob name.now (rows_of (found_of found.now))) }
    ensures none { IsErr result → (job : Job) → MeansJob name.now (rows_of (found_of found.now)) job → ⊥ }
{
    let image = path_in("IMG", found)?;
    match name {
        "verify" => Ok(Job::Verify { image }),
        "run" => Ok(Job::Run {
            image,
            windows: windows_in(found)?,
        }),
        "list" => Ok(Job::List { image }),
        "trace" => Ok(Job::Trace {
            image,
            windows: windows_in(found)?,
            limit: limit_in(found)?,
        }),
        _ => Err(Lack::Command),
    }
}

/// The job of a command with what was found for it.
fn job_of<'a>(name: &str, found: &ArgMatches<'a>) -> Result<Job<'a>, Lack>
    ensures job { IfOk result (MeansJob name.now (rows_of (found_of found.now))) }
    ensures none { IsErr result → (job : Job) → MeansJob name.now (rows_of (found_of found.now)) job → ⊥ }
{
    match name {
        "asm" => Ok(Job::Asm {
            source: path_in("SRC", found)?,
            object: path_in("OUT", found)?,
        }),
        _ => image_job(name, found),
    }
}

/// The job of all that was found.
fn job_in<'a>(matches: &ArgMatches<'a>) -> Result<Job<'a>, Lack>
    ensures job { IfOk result (Means (subcommand_rows_of matches.now)) }
    ensures none { IsErr result → (job : Job) → Means (subcommand_rows_of matches.now) job → ⊥ }
{
    match matches.subcommand() {
        Some((name, found)) => job_of(name, found),
        None => Err(Lack::Command),
    }
}

/// What `clap` finds in the words, where it finds no fault with them.
fn matches_of<'a, S: AsStr>(alloc: Global, words: &'a [S]) -> Result<ArgMatches<'a>, Usage>
    ensures found { IfOk result (λ m. (fault_of sandbox_app (map S.text words.entry.now) ≡ [])
        × (subcommand_rows_of m ≡ subcommand_of sandbox_app (map S.text words.entry.now))) }
    ensures refused { IfErr result (λ usage. IsTrueOfWords usage (map S.text words.entry.now)) }
{
    let command = sandbox(alloc)?;
    match command.try_get_matches_from(words) {
        Ok(matches) => Ok(matches),
        Err(error) => Err(usage_of(alloc, &error)),
    }
}

/// What the words, without the program's name, ask for: the job that they mean; or that they ask for none, or that
/// memory was refused.
pub fn read_words<'a, S: AsStr>(alloc: Global, words: &'a [S]) -> Result<Job<'a>, Usage>
    ensures range { IfOk result IsInRange }
    ensures asked { IfOk result (AskFor (map S.text words.entry.now)) }
    ensures refused { IfErr result (λ usage. IsTrueOfWords usage (map S.text words.entry.now)) }
{
    let matches = matches_of(alloc, words)?;
    match job_in(&matches) {
        Ok(job) => Ok(job),
        Err(lack) => Err(usage_of_lack(alloc, lack)),
    }
}
