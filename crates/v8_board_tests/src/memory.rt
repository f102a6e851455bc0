//! The device, register by register.
use crate::ports::Probe;
use std::alloc::{AllocError, Global};
use std::test::Fail;
use v8_memory::Memory;
use v8_mmu::{Bus, BusFault, PortFault, Stop};
use v8_word::Size;

/// A memory over a port with this input.
fn memory<'a>(alloc: Global, input: &'a [u8]) -> Result<Memory<Probe<'a>>, AllocError> {
    Memory::new(alloc, Probe::new(alloc, input, 0, PortFault::Writer))
}

/// A load.
fn load(memory: &mut Memory<Probe<'_>>, pa: u64, size: Size) -> Result<u64, BusFault> {
    memory.read(pa, size)
}

/// Whether a load of the first register gives this word, and the port was then called so often.
fn loads(memory: &mut Memory<Probe<'_>>, word: u64, calls: u64) -> bool {
    load(memory, 0x1_0000_0000, Size::Word) == Ok(word) && memory.port().calls == calls
}

/// Whether a store of a word at a place is done, and the device then has stopped so.
fn stores(memory: &mut Memory<Probe<'_>>, pa: u64, word: u32, stop: &Option<Stop>) -> bool {
    memory.write(pa, Size::Word, u64::from(word)) == Ok(()) && memory.stop() == *stop
}

/// Whether the port was called so often and kept these bytes.
fn kept(memory: &Memory<Probe<'_>>, calls: u64, bytes: &[u8]) -> bool {
    memory.port().calls == calls && memory.port().kept.as_slice() == bytes
}

/// Whether loads give `a`, FF and then the end, again and again, and the port is called so often.
fn loads_to_the_end(memory: &mut Memory<Probe<'_>>) -> bool {
    for (word, calls) in [
        (0x61, 1),
        (0xFF, 2),
        (0xFFFF_FFFF, 3),
        (0xFFFF_FFFF, 3),
        (0xFFFF_FFFF, 3),
    ] {
        if !loads(memory, word, calls) {
            return false;
        }
    }
    true
}

/// Whether the port is asked again after a restart.
fn asks_after_a_restart(memory: &mut Memory<Probe<'_>>) -> bool {
    memory.restart();
    loads(memory, 0xFFFF_FFFF, 4) && kept(memory, 4, b"") && memory.stop().is_none()
}

/// A load of the first register gives the next byte of input, and all ones at its end. From then on the port isn't
/// asked.
#[test]
fn loads_give_the_input_and_its_end(rt: HostRuntime) -> Result<(), Fail> {
    let mut memory = memory(rt.alloc(), b"a\xFF")?;
    assert!(rt; loads_to_the_end(&mut memory) && asks_after_a_restart(&mut memory));
    Ok(())
}

/// The place and the word of a store, how the device has then stopped, and what it has put out.
type Stored = (u64, u32, Option<Stop>, &'static [u8]);

const STORED: [Stored; 4] = [
    (0x1_0000_0004, 0x1234_5648, None, b"H"),
    (0x1_0000_0004, 0x69, None, b"Hi"),
    (
        0x1_0000_0008,
        0x8000_0021,
        Some(Stop::Exit(0x8000_0021)),
        b"Hi",
    ),
    (0x1_0000_000C, 5, Some(Stop::Trapped), b"Hi"),
];

/// Whether each of these stores is done so, one after another.
fn stores_each(memory: &mut Memory<Probe<'_>>) -> bool {
    for (pa, word, stop, bytes) in &STORED {
        let calls = bytes.len() as u64;
        if !(stores(memory, *pa, *word, stop) && kept(memory, calls, bytes)) {
            return false;
        }
    }
    true
}

/// A store to the second register puts the low byte out, one to the third stops with its word, one to the fourth as
/// trapped.
#[test]
fn stores_put_out_and_stop(rt: HostRuntime) -> Result<(), Fail> {
    let mut memory = memory(rt.alloc(), b"a")?;
    assert!(rt; stores_each(&mut memory));
    Ok(())
}

/// Whether nothing answers loads of this size there.
fn refuses_loads(memory: &mut Memory<Probe<'_>>, pa: u64, size: Size) -> bool {
    load(memory, pa, size) == Err(BusFault::Unanswered)
}

/// Whether nothing answers stores of this size there.
fn refuses_stores(memory: &mut Memory<Probe<'_>>, pa: u64, size: Size) -> bool {
    memory.write(pa, size, 0x21) == Err(BusFault::Unanswered)
}

/// Whether nothing answers stores of bytes, halfwords and double words there.
fn refuses_other_stores(memory: &mut Memory<Probe<'_>>, pa: u64) -> bool {
    refuses_stores(memory, pa, Size::Byte)
        && refuses_stores(memory, pa, Size::Half)
        && refuses_stores(memory, pa, Size::Double)
}

/// Whether nothing answers the exchanges of LDSTUB and SWAP there.
fn refuses_exchanges(memory: &mut Memory<Probe<'_>>, pa: u64) -> bool {
    memory.swap(pa, Size::Byte, 0xFF) == Err(BusFault::Unanswered)
        && memory.swap(pa, Size::Word, 0x21) == Err(BusFault::Unanswered)
}

/// Whether the device has not stopped, and its port was not called.
fn is_untouched(memory: &Memory<Probe<'_>>) -> bool {
    memory.stop().is_none() && kept(memory, 0, b"")
}

/// Whether nothing answers loads of words at these places.
fn refuses_loads_at(memory: &mut Memory<Probe<'_>>, places: &[u64]) -> bool {
    for pa in places {
        if !refuses_loads(memory, *pa, Size::Word) {
            return false;
        }
    }
    true
}

/// Whether nothing answers stores of words at these places.
fn refuses_words_at(memory: &mut Memory<Probe<'_>>, places: &[u64]) -> bool {
    for pa in places {
        if !refuses_stores(memory, *pa, Size::Word) {
            return false;
        }
    }
    true
}

/// Whether nothing answers words elsewhere.
fn answers_no_word(memory: &mut Memory<Probe<'_>>) -> bool {
    let no_loads = [
        0x1_0000_0004,
        0x1_0000_0008,
        0x1_0000_000C,
        0x1_0000_0010,
        0x1_0000_1000,
    ];
    let no_stores = [0x1_0000_0000, 0x1_0000_0010, 0x1_0000_1000];
    refuses_loads_at(memory, &no_loads)
        && refuses_words_at(memory, &no_stores)
        && is_untouched(memory)
}

/// A word at a register that doesn't answer its kind of access, or past the last one: nothing answers, and the port
/// isn't called.
#[test]
fn words_elsewhere_are_not_answered(rt: HostRuntime) -> Result<(), Fail> {
    let mut memory = memory(rt.alloc(), b"a")?;
    assert!(rt; answers_no_word(&mut memory));
    Ok(())
}

/// Whether nothing answers loads of bytes, halfwords and double words there.
fn refuses_other_loads(memory: &mut Memory<Probe<'_>>, pa: u64) -> bool {
    refuses_loads(memory, pa, Size::Byte)
        && refuses_loads(memory, pa, Size::Half)
        && refuses_loads(memory, pa, Size::Double)
}

/// Whether no register answers another size or an exchange.
fn answers_words_alone(memory: &mut Memory<Probe<'_>>) -> bool {
    for pa in [0x1_0000_0000, 0x1_0000_0004, 0x1_0000_0008, 0x1_0000_000C] {
        if !(refuses_other_loads(memory, pa)
            && refuses_other_stores(memory, pa)
            && refuses_exchanges(memory, pa))
        {
            return false;
        }
    }
    is_untouched(memory)
}

/// Bytes, halfwords, double words and exchanges: no register answers, and the port isn't called.
#[test]
fn other_sizes_and_exchanges_are_not_answered(rt: HostRuntime) -> Result<(), Fail> {
    let mut memory = memory(rt.alloc(), b"a")?;
    assert!(rt; answers_words_alone(&mut memory));
    Ok(())
}
