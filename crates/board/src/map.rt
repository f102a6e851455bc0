//! What lies where, told.
use crate::places::{BOOT, BOOT_TABLE, BUFFERS, MAIL, ROOM, ROUTINES};
use crate::words::BoardAsked;
use leon_words::LeonServices;
use std::fmt::{self, Display, Formatter, Write};
use v8_map::{CODE_PLACE, CONTEXT_TABLE, DATA_PLACE, HANDLERS_PLACE, STACK_PLACE, TABLES_END};

/// The map of what is written, a line a part: physical addresses, and what lies there.
#[derive(Clone, Copy)]
pub struct BoardMap<'a> {
    pub asked: &'a BoardAsked<'a>,
}

impl BoardMap<'_> {
    /// A line of a part.
    fn line<W: Write>(&self, f: &mut Formatter<W>, place: u32, what: &str) -> fmt::Result {
        writeln!(f, "{:08x} {what}", self.asked.base.wrapping_add(place))
    }

    /// The lines of the services' parts.
    fn services<W: Write>(&self, f: &mut Formatter<W>) -> fmt::Result {
        match self.asked.services {
            LeonServices::Mailbox => {
                self.line(f, ROUTINES, "services")?;
                self.line(f, MAIL, "mailbox")?;
                self.line(f, BUFFERS, "input")?;
                self.line(f, BUFFERS + ROOM, "output")
            }
            LeonServices::Uart => {
                self.line(f, ROUTINES, "services, over the UART at 80000100")?;
                self.line(f, MAIL, "locals of the services")
            }
            LeonServices::Device(page) => writeln!(f, "{:09x} device", u64::from(page) * 4096),
        }
    }
}

impl Display for BoardMap<'_> {
    fn fmt<W: Write>(&self, f: &mut Formatter<W>) -> fmt::Result {
        self.line(f, 0, "trap table")?;
        self.line(f, HANDLERS_PLACE, "window handlers")?;
        self.line(f, CONTEXT_TABLE, "page tables")?;
        self.line(f, TABLES_END, "end of the page tables")?;
        self.line(f, BOOT_TABLE, "page tables of the boot stub")?;
        self.line(f, BOOT, "boot stub, where execution begins")?;
        self.line(f, CODE_PLACE, "code")?;
        self.line(f, DATA_PLACE, "data")?;
        self.line(f, STACK_PLACE, "stack, which ends 64 KB higher")?;
        self.services(f)
    }
}
