//! The start of an image in RAM that stands higher.
ghost use Rattle.std.specs.Prelude.{◌≡◌, ◌≤◌, ◌<◌, ◌+◌, ◌*◌, ◌/◌, ◌%◌, ◌^◌, [], length, IfErr, IfOk, Some};
ghost use Rattle.v8_core.specs.Ram.{entry_of};
ghost use Rattle.v8_board.specs.States.{IsState};
ghost use Rattle.v8_map.specs.declared.TheConstants.{RAM};
ghost use Rattle.sbx_raw.specs.Runs.{IsBegun};
ghost use Rattle.want.specs.Wants.{refused};
ghost use Rattle.leon_start.specs.Starts.{IsLeonStart, IsMoved, cacheable, moved_word, start_word};

use crate::own::{OwnWords, own_word};
use sbx_counts::on_windows;
use sbx_image::Image;
use sbx_raw::{RunFault, SlicePort, begun};
use std::alloc::Global;
use v8_board::Board;
use v8_map::{CONTEXT_TABLE, RAM, TABLES_END};
use v8_memory::Ram;

/// The words of RAM.
const WORDS: u64 = RAM as u64 / 4;

/// The numbers of the first word of the page tables, and of the one behind their last.
const FIRST: u64 = CONTEXT_TABLE as u64 / 4;

const BEHIND: u64 = TABLES_END as u64 / 4;

/// Where RAM lies in a processor's physical memory.
#[derive(Clone, Copy)]
pub struct RamPlace {
    /// The physical address of its first byte, a multiple of 16 MB.
    pub base: u32,
    /// Whether caches may keep code, data and stack: the bit C of their pages' entries (appendix H).
    pub cached: bool,
}

/// The bit C of an entry, where caches may keep what it names and it names a page.
fn cacheable(cached: bool, word: u32) -> u32
    ensures value { result ≡ cacheable cached word }
    ensures small { result ≤ 128 }
{
    if cached && word % 4 == 2 { 128 } else { 0 }
}

/// A word of loaded RAM, by its number, as it is there: an entry of the page tables names a place in units of 16 bytes,
/// as much higher as RAM begins.
fn moved_word(place: &RamPlace, number: u64, word: u32) -> u32
    ensures { result ≡ moved_word place.now number word }
{
    if FIRST <= number && number < BEHIND && word != 0 {
        word.wrapping_add(place.base / 16 + cacheable(place.cached, word))
    } else {
        word
    }
}

/// The word of a number in RAM as an image starts in it.
fn start_word(place: &RamPlace, own: &[OwnWords<'_>], number: u64, word: u32) -> u32
    ensures { result ≡ start_word place.now own.now number word }
{
    match own_word(own, number) {
        Some(own) => own,
        None => moved_word(place, number, word),
    }
}

/// The word of a board's RAM at a place that there is.
fn word_at<const N: usize>(board: &Board<N, SlicePort<'_>>, at: u64) -> u32
    requires whole { at % 4 ≡ 0 }
    requires fits { at + 4 ≤ length board.now.state.world.memory.ram }
    ensures { entry_of board.now.state.world.memory.ram at ≡ Some result }
{
    match board.entry(at) {
        Some(word) => word,
        None => unreachable!(),
    }
}

/// Writes each word of a board's RAM, moved, or the word that stands in its place.
fn move_ram<const N: usize>(
    board: &Board<N, SlicePort<'_>>,
    place: &RamPlace,
    own: &[OwnWords<'_>],
    ram: &mut Ram,
)
    requires size { length ram.old ≡ RAM }
    requires state { IsState N board.now.state.mmu board.now.state.world }
    ensures size { length ram.new ≡ RAM }
    ensures words { IsMoved place.now own.now board.now.state.world.memory.ram ram.new }
{
    for number in 0..WORDS {
        let word = word_at(board, 4 * number);
        ram.set_entry(4 * number, start_word(place, own, number, word));
    }
}

/// The start on `N` windows, which are as many as the number says.
fn start_on<const N: usize>(
    alloc: Global,
    windows: u32,
    image: &Image,
    place: &RamPlace,
    own: &[OwnWords<'_>],
) -> Result<Ram, RunFault>
    requires range { (4 ≤ N) × (N ≤ 32) }
    requires same { windows ≡ N }
    ensures start { IfOk result (λ ram. IsLeonStart windows image.now place.now own.now ram) }
    ensures fault { IfErr result (λ fault. fault ≡ RunFault.Memory refused) }
{
    let _ = windows;
    let board = begun::<N>(alloc, image, &[])?;
    match Ram::new(alloc) {
        Ok(ram) => {
            let mut ram = ram;
            move_ram(&board, place, own, &mut ram);
            Ok(ram)
        }
        Err(error) => Err(RunFault::from(error)),
    }
}

/// RAM of 1 MiB as an image starts in it on a processor of so many windows, 4 to 32: the start that loading it into a
/// new board makes, each entry of its page tables naming a place as much higher as RAM begins, and in the place of some
/// words others, which are the processor's own. The only fault is `RunFault::Memory`.
pub fn start_windows(
    alloc: Global,
    windows: u32,
    image: &Image,
    place: &RamPlace,
    own: &[OwnWords<'_>],
) -> Result<Ram, RunFault>
    requires { (4 ≤ windows) × (windows ≤ 32) }
    ensures start { IfOk result (λ ram. IsLeonStart windows image.now place.now own.now ram) }
    ensures fault { IfErr result (λ fault. fault ≡ RunFault.Memory refused) }
{
    on_windows!(windows, start_on [] (alloc, windows, image, place, own), 4 to 32)
}
