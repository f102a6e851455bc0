//! What the words of a command line ask for.
use cmd_jobs::{Windows, window_count};
use leon_words::LeonServices;

/// What is told of `--help`, and of words that ask for nothing.
pub const USAGE: &str = "Usage: board IMG OUT [OPTIONS]

Makes of an image that `sandbox verify` accepts a program for a LEON3 without an operating system: boot
stub, trap table, window handlers, page tables, services and the image itself, as an ELF file for QEMU,
GRMON or TSIM. An image that isn't accepted is refused.

  --mailbox           input, output and the end lie in RAM (the usual way)
  --input FILE        the input that lies there: at most 131072 bytes
  --uart              they go over the UART, framed
  --device PLACE      they go by a device with the sandbox machine's four registers, at this physical
                      address
  --ram PLACE         where RAM begins, a multiple of 16 MB (0x40000000)
  --windows N         how many register windows the processor has, 4 to 32 (8)
  --cached            caches may keep code, data and stack
  --srec              OUT is S-records in the place of an ELF file
  --map               tells on standard output what lies where

A PLACE is decimal, or hexadecimal behind 0x.

Status 0: OUT was written. 2: the image is refused. 3: wrong arguments, or places that can't be. 4: a file or
a stream fails, or memory.
";

/// What words ask for.
#[derive(Clone, Copy)]
pub struct BoardAsked<'a> {
    pub image: &'a str,
    pub out: &'a str,
    pub services: LeonServices,
    pub input: Option<&'a str>,
    /// The physical address at which RAM begins.
    pub base: u32,
    pub windows: Windows,
    pub cached: bool,
    pub records: bool,
    pub map: bool,
}

/// Why words ask for nothing.
#[derive(Clone, Copy)]
pub enum WordsFault<'a> {
    /// They ask how the program is called, or say nothing.
    Usage,
    /// This word is no option.
    Unknown(&'a str),
    /// What this option wants.
    Value(&'static str),
    /// These places or ways don't go together.
    Places(&'static str),
}

/// What `--device` and `--ram` want.
const DEVICE: &str = "--device wants a physical address, a multiple of 4096 below 0x1000000000";

const RAM: &str = "--ram wants a physical address, a multiple of 0x1000000 from 0 to 0xef000000";

const WINDOWS: &str = "--windows wants a decimal number from 4 to 32";

/// What stands in the place of options that aren't there.
const USUAL_RAM: u32 = 0x4000_0000;

/// The options that stand among the words, with their texts.
#[derive(Clone, Copy)]
struct Options<'a> {
    paths: [Option<&'a str>; 2],
    uart: bool,
    mailbox: bool,
    device: Option<&'a str>,
    input: Option<&'a str>,
    ram: Option<&'a str>,
    windows: Option<&'a str>,
    cached: bool,
    records: bool,
    map: bool,
}

/// The option whose value the next word is.
#[derive(Clone, Copy)]
enum Wanted {
    Nothing,
    Device,
    Input,
    Ram,
    Windows,
}

impl<'a> Options<'a> {
    /// No option.
    fn none() -> Self {
        Options {
            paths: [None, None],
            uart: false,
            mailbox: false,
            device: None,
            input: None,
            ram: None,
            windows: None,
            cached: false,
            records: false,
            map: false,
        }
    }

    /// Takes a path: of the image, and then of the file that is written.
    fn take_path(&mut self, word: &'a str) -> Result<Wanted, WordsFault<'a>> {
        match self.paths {
            [None, second] => self.paths = [Some(word), second],
            [first, None] => self.paths = [first, Some(word)],
            _ => return Err(WordsFault::Usage),
        }
        Ok(Wanted::Nothing)
    }

    /// Takes a word that is no option's value.
    fn take_first(&mut self, word: &'a str) -> Result<Wanted, WordsFault<'a>> {
        match word {
            "--device" => return Ok(Wanted::Device),
            "--input" => return Ok(Wanted::Input),
            "--ram" => return Ok(Wanted::Ram),
            "--windows" => return Ok(Wanted::Windows),
            "--uart" => self.uart = true,
            "--mailbox" => self.mailbox = true,
            "--cached" => self.cached = true,
            "--srec" => self.records = true,
            "--map" => self.map = true,
            _ if word.starts_with("--") => return Err(WordsFault::Unknown(word)),
            _ => return self.take_path(word),
        }
        Ok(Wanted::Nothing)
    }

    /// Takes the next word.
    fn take(&mut self, wanted: Wanted, word: &'a str) -> Result<Wanted, WordsFault<'a>> {
        match wanted {
            Wanted::Nothing => return self.take_first(word),
            Wanted::Device => self.device = Some(word),
            Wanted::Input => self.input = Some(word),
            Wanted::Ram => self.ram = Some(word),
            Wanted::Windows => self.windows = Some(word),
        }
        Ok(Wanted::Nothing)
    }
}

/// The physical address that a text spells, in decimal, or in hexadecimal behind `0x`.
fn place_in(text: &str) -> Option<u64> {
    let (digits, radix) = match text.strip_prefix("0x") {
        Some(digits) => (digits, 16),
        None => (text, 10),
    };
    match digits.as_bytes().first() {
        Some(b'+') | None => None,
        Some(_) => u64::from_str_radix(digits, radix).ok(),
    }
}

/// The place of RAM that a text gives.
fn base_in(text: Option<&str>) -> Option<u32> {
    let Some(text) = text else {
        return Some(USUAL_RAM);
    };
    match place_in(text) {
        Some(place) if place % 0x100_0000 == 0 && place <= 0xEF00_0000 => u32::try_from(place).ok(),
        _ => None,
    }
}

/// The page of a device that a text gives, by its number.
fn page_in(text: &str) -> Option<u32> {
    match place_in(text) {
        Some(place) if place % 4096 == 0 && place < 0x10_0000_0000 => u32::try_from(
            place / 4096,
        ).ok(),
        _ => None,
    }
}

/// How the services reach the world, by the options.
fn services_in<'a>(options: &Options<'a>, base: u32) -> Result<LeonServices, WordsFault<'a>> {
    let device = options.device;
    if (options.uart & options.mailbox) | (device.is_some() & (options.uart | options.mailbox)) {
        return Err(WordsFault::Places("one way is wanted of --mailbox, --uart and --device"));
    }
    if let Some(text) = device {
        let page = match page_in(text) {
            Some(page) => page,
            None => return Err(WordsFault::Value(DEVICE)),
        };
        if base / 4096 <= page && page - base / 4096 < 256 {
            return Err(WordsFault::Places("the device's page lies in RAM"));
        }
        return Ok(LeonServices::Device(page));
    }
    Ok(if options.uart {
        LeonServices::Uart
    } else {
        LeonServices::Mailbox
    })
}

/// What options ask for.
fn asked_by<'a>(options: &Options<'a>) -> Result<BoardAsked<'a>, WordsFault<'a>> {
    let [Some(image), Some(out)] = options.paths else {
        return Err(WordsFault::Usage);
    };
    let base = match base_in(options.ram) {
        Some(base) => base,
        None => return Err(WordsFault::Value(RAM)),
    };
    let windows = match window_count(options.windows) {
        Some(windows) => windows,
        None => return Err(WordsFault::Value(WINDOWS)),
    };
    let services = services_in(options, base)?;
    if options.input.is_some() && !matches!(services, LeonServices::Mailbox) {
        return Err(WordsFault::Places("--input is for input that lies in RAM"));
    }
    Ok(BoardAsked {
        image,
        out,
        services,
        input: options.input,
        base,
        windows,
        cached: options.cached,
        records: options.records,
        map: options.map,
    })
}

/// What words ask for.
pub fn read_words(words: &[String]) -> Result<BoardAsked<'_>, WordsFault<'_>> {
    let mut options = Options::none();
    let mut wanted = Wanted::Nothing;
    for word in words {
        wanted = options.take(wanted, word.as_str())?;
    }
    match wanted {
        Wanted::Nothing => asked_by(&options),
        Wanted::Device => Err(WordsFault::Value(DEVICE)),
        Wanted::Input => Err(WordsFault::Value("--input wants the path of a file")),
        Wanted::Ram => Err(WordsFault::Value(RAM)),
        Wanted::Windows => Err(WordsFault::Value(WINDOWS)),
    }
}
