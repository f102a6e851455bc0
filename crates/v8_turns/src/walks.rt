//! Walks of page tables: an access, and where it goes, or why it is refused.
use crate::fields::{hexadecimal, long_hexadecimal, number};
use crate::seen::{Tried, has_memory};
use crate::shut::Shut;
use crate::state::{WORDS, put_word};
use std::alloc::{AllocError, Global};
use v8_core::{Event, Machine, Turn};
use v8_memory::Memory;
use v8_mmu::{Access, AccessKind, MmuRegs, walk};
use v8_word::{Reg, TrapType};

/// What makes an access.
#[derive(Clone, Copy, PartialEq, Eq)]
enum Kind {
    Load,
    Store,
    Fetch,
}

/// What a line tells of an access: the context table and the context, what makes it, its access type (AT of the fault
/// status, 0 to 7), its address, the address of the instruction that makes it, and the word that is stored or has to be
/// loaded or fetched; where it goes and the level of the page's entry; or the fault status, which is 0 where it is
/// done.
#[derive(Clone, Copy)]
struct Walk {
    table: u64,
    context: u32,
    kind: Kind,
    at: u32,
    va: u32,
    code: u32,
    value: u32,
    pa: u64,
    level: u32,
    status: u32,
}

const NO_WALK: Walk = Walk {
    table: 0,
    context: 0,
    kind: Kind::Load,
    at: 0,
    va: 0,
    code: 0,
    value: 0,
    pa: 0,
    level: 0,
    status: 0,
};

/// An access as a line has it, with RAM before it and after it.
#[derive(Drop)]
pub struct Case {
    walk: Walk,
    before: Vec<u32>,
    after: Vec<u32>,
}

/// Where the instruction that makes a load or a store lies: the word of RAM at 200.
const CODE: usize = 0x80;

/// `lda [%g1]ASI,%g2` and `sta %g2,[%g1]ASI`, to whose bits 12 to 5 the ASI goes.
const LOAD: u32 = 0xC480_4000;

const STORE: u32 = 0xC4A0_4000;

/// Register numbers of the address and the word.
const ADDRESS: u8 = 1;

const VALUE: u8 = 2;

/// The kind of this name.
fn kind_of(name: &str) -> Option<Kind> {
    match name {
        "load" => Some(Kind::Load),
        "store" => Some(Kind::Store),
        "fetch" => Some(Kind::Fetch),
        _ => None,
    }
}

impl Walk {
    /// Sets what a field tells that is no word of RAM.
    fn put(&mut self, name: &str, text: &str) -> Option<()> {
        match name {
            "table" => self.table = long_hexadecimal(text)?,
            "pa" => self.pa = long_hexadecimal(text)?,
            "access" => self.kind = kind_of(text)?,
            "at" => self.at = number(text)?,
            "level" => self.level = number(text)?,
            _ => return self.put_word(name, hexadecimal(text)?),
        }
        Some(())
    }

    fn put_word(&mut self, name: &str, word: u32) -> Option<()> {
        match name {
            "context" => self.context = word,
            "va" => self.va = word,
            "code" => self.code = word,
            "value" => self.value = word,
            "fsr" => self.status = word,
            _ => return None,
        }
        Some(())
    }

    /// The access, as the MMU is asked for it.
    fn access(&self) -> Access {
        let code = self.at & 2 != 0;
        let kind = match self.kind {
            Kind::Store => {
                if code {
                    AccessKind::StoreCode
                } else {
                    AccessKind::Store
                }
            }
            Kind::Load | Kind::Fetch => {
                if code {
                    AccessKind::Fetch
                } else {
                    AccessKind::Load
                }
            }
        };
        Access {
            user: self.at & 1 == 0,
            kind,
        }
    }

    /// The instruction that makes the access. Identifiers of spaces: 8 and 9 user's and supervisor's instructions, 10
    /// and 11 their data.
    fn instruction(&self) -> u32 {
        let space = if self.at & 2 != 0 { 8 } else { 10 } + (self.at & 1);
        let base = if self.kind == Kind::Store {
            STORE
        } else {
            LOAD
        };
        base | space << 5
    }

    /// Where the access's instruction is fetched, and PSR: a fetch is made in its own mode, others by the supervisor.
    fn start(&self) -> (u32, u32) {
        match self.kind {
            Kind::Fetch => (self.va, if self.at & 1 == 0 { 0x20 } else { 0xA0 }),
            Kind::Load | Kind::Store => (self.code, 0xA0),
        }
    }
}

/// Sets what a field tells of the walk or of RAM; false where it isn't read.
fn put(walk: &mut Walk, memory: &mut [u32], field: &str) -> bool {
    let Some((name, text)) = field.split_once('=') else {
        return false;
    };
    match name.strip_prefix('[') {
        Some(place) => match hexadecimal(text) {
            Some(word) => put_word(memory, place, word),
            None => false,
        },
        None => walk.put(name, text).is_some(),
    }
}

/// The same of fields, which stand a blank apart.
fn put_all(walk: &mut Walk, memory: &mut [u32], fields: &str) -> bool {
    let mut all = true;
    for field in fields.split(' ') {
        all &= put(walk, memory, field);
    }
    all
}

/// The walk of a line: `FIELD .. -> FIELD ..`.
pub fn read_walk(alloc: Global, text: &str) -> Result<Option<Case>, AllocError> {
    let Some((front, back)) = text.split_once(" -> ") else {
        return Ok(None);
    };
    let mut walk = NO_WALK;
    let mut before = vec![in alloc; 0; WORDS]?;
    let mut all = put_all(&mut walk, &mut before, front);
    if walk.kind != Kind::Fetch {
        before[CODE] = walk.instruction();
    }
    let mut after = before.clone()?;
    all &= put_all(&mut walk, &mut after, back);
    if all {
        Ok(Some(Case {
            walk,
            before,
            after,
        }))
    } else {
        Ok(None)
    }
}

/// Sets the registers for an access; false where an address is no multiple of 4.
fn start(machine: &mut Tried<8>, asked: &Walk) -> bool {
    let (pc, psr) = asked.start();
    if pc % 4 != 0 {
        return false;
    }
    machine.set_pc(pc);
    machine.set_npc(pc.wrapping_add(4) & 0xFFFF_FFFC);
    if let (Some(address), Some(value)) = (Reg::new(ADDRESS), Reg::new(VALUE)) {
        machine.set_reg(address, asked.va);
        // (a load has to bring its word)
        machine.set_reg(
            value,
            if asked.kind == Kind::Store {
                asked.value
            } else {
                0
            },
        );
    }
    machine.set_psr(psr)
}

/// Whether the tables lead where the line says, at the level that it says.
fn leads(machine: &Tried<8>, regs: &MmuRegs, asked: &Walk) -> bool {
    match walk(machine.bus(), regs, asked.va, asked.access()) {
        Ok(found) => found.pa == asked.pa && found.level as u32 == asked.level,
        Err(_) => false,
    }
}

/// Whether an access that is done moved the line's word to or from the line's place.
fn is_done(machine: &Tried<8>, turn: &Turn, asked: &Walk) -> bool {
    if turn.event != Event::Ran || machine.fault_status() != 0 {
        return false;
    }
    match (asked.kind, turn.access) {
        (Kind::Fetch, None) => turn.word == Some(asked.value),
        (Kind::Load | Kind::Store, Some(access)) => {
            access.va == asked.va && access.pa == asked.pa && has_value(machine, asked)
        }
        _ => false,
    }
}

/// Whether the register of the word has the line's.
fn has_value(machine: &Tried<8>, asked: &Walk) -> bool {
    match Reg::new(VALUE) {
        Some(value) => machine.reg(value) == asked.value,
        None => false,
    }
}

/// Whether an access was refused with the line's fault status.
fn is_refused(machine: &Tried<8>, turn: &Turn, asked: &Walk) -> bool {
    let trap = match asked.kind {
        Kind::Fetch => TrapType::INSTRUCTION_ACCESS_EXCEPTION,
        Kind::Load | Kind::Store => TrapType::DATA_ACCESS_EXCEPTION,
    };
    turn.event == Event::Trapped(trap) && machine.fault_status() == asked.status
}

/// Whether the machine finds what the line says, by an instruction that makes the access, and leaves RAM so.
fn agrees_on(machine: &mut Tried<8>, regs: &MmuRegs, case: &Case) -> bool {
    let asked = case.walk;
    if !start(machine, &asked) {
        return false;
    }
    let led = asked.status != 0 || leads(machine, regs, &asked);
    let Ok(turn) = machine.step() else {
        return false;
    };
    let told = if asked.status == 0 {
        is_done(machine, &turn, &asked)
    } else {
        is_refused(machine, &turn, &asked)
    };
    led && told && has_memory(machine.bus(), case.after.as_slice())
}

/// Whether a machine with the line's tables agrees with all that the line tells.
pub fn agrees(alloc: Global, case: &Case) -> Result<bool, AllocError> {
    let (table, context) = (case.walk.table, case.walk.context);
    if table >= 1 << 36 || table % 4 != 0 {
        return Ok(false);
    }
    let regs = MmuRegs { table, context };
    let mut memory = Memory::new(alloc, Shut::NEW)?;
    memory.set_words(0, &case.before, WORDS as u64);
    let mut machine = Machine::new(memory, regs);
    Ok(agrees_on(&mut machine, &regs, case))
}
