// Windows that go round, and masks that forbid them (chapter 4, "Window Invalid Mask").
ghost use Rattle.std.specs.Prelude.{◌≤◌};

use v8_windows::RegFile;
use v8_windows::laws::{
    outs_are_ins_below, reads_others_as_before, reads_what_was_written, writes_one_place,
};
use v8_word::reg_at;

/// Whether SAVE is allowed from each window but one.
fn goes_down<const N: usize>(file: &mut RegFile<N>) -> bool {
    let mut allowed = true;
    for _ in 1..N {
        allowed &= file.save();
    }
    allowed
}

/// Whether RESTORE is allowed from each window but one.
fn goes_up<const N: usize>(file: &mut RegFile<N>) -> bool {
    let mut allowed = true;
    for _ in 1..N {
        allowed &= file.restore();
    }
    allowed
}

/// Whether an out is the in of the window below, once round all windows by SAVE and back by RESTORE.
fn goes_round<const N: usize>() -> bool
    requires few { 4 ≤ N }
    requires many { N ≤ 32 }
{
    let (out, same_as_in) = (reg_at(8, 0), reg_at(24, 0));
    let mut file = RegFile::<N>::new();
    let mut agrees = file.cwp() == 0;
    file.set(out, 7);
    agrees &= file.save();
    agrees &= file.cwp() as usize == N - 1;
    agrees &= file.get(same_as_in) == 7;
    agrees &= goes_down(&mut file);
    agrees &= file.cwp() == 0;
    agrees &= file.get(out) == 7;
    agrees &= goes_up(&mut file);
    agrees &= file.get(same_as_in) == 7;
    agrees &= file.restore();
    agrees & (file.get(out) == 7)
}

/// Whether a mask begins with no window and keeps a bit for each window; `all` are those bits.
fn keeps_a_bit_a_window<const N: usize>(all: u32) -> bool
    requires few { 4 ≤ N }
    requires many { N ≤ 32 }
{
    let mut file = RegFile::<N>::new();
    let begins = file.wim() == 0;
    file.set_wim(0xffff_ffff);
    begins & (file.wim() == all)
}

#[test]
fn goes_round_any_number_of_windows(rt: HostRuntime) {
    assert!(rt; goes_round::<4>() && keeps_a_bit_a_window::<4>(0xf));
    assert!(rt; goes_round::<8>() && keeps_a_bit_a_window::<8>(0xff));
    assert!(rt; goes_round::<32>() && keeps_a_bit_a_window::<32>(0xffff_ffff));
}

/// Whether a register reads the last of two words that are written to it.
fn reads_back(file: &mut RegFile<4>, number: u32, word: u32) -> bool {
    let r = reg_at(number, 0);
    file.set(r, 0x1111_1111);
    file.set(r, word);
    file.get(r) == word
}

/// Whether masks of the windows next to window 0 forbid each move to them.
fn masks_forbid(file: &mut RegFile<4>) -> bool {
    file.set_wim(8);
    let mut allowed = file.save();
    file.set_wim(2);
    allowed |= file.restore();
    allowed |= file.leave_trap();
    allowed |= file.set_cwp(4);
    !allowed & (file.cwp() == 0)
}

/// Whether a trap goes to a masked window, tells there where it came from, and is left again.
fn traps_and_returns(file: &mut RegFile<4>) -> bool {
    file.set_wim(8);
    file.enter_trap(0x4_0000, 0x4_0004);
    let mut agrees = file.cwp() == 3;
    agrees &= file.get(reg_at(17, 0)) == 0x4_0000;
    agrees &= file.get(reg_at(18, 0)) == 0x4_0004;
    agrees &= file.leave_trap();
    agrees & (file.cwp() == 0)
}

/// Registers of each kind with a word that each of them then reads.
const READ_BACK: [(u32, u32); 5] = [(0, 0), (1, 5), (8, 6), (16, 7), (31, 8)];

/// Whether each of these registers reads its word.
fn each_reads_back(file: &mut RegFile<4>) -> bool {
    for &(number, word) in &READ_BACK {
        if !reads_back(file, number, word) {
            return false;
        }
    }
    true
}

/// Whether a window that no mask forbids is gone to.
fn goes_to_a_window(file: &mut RegFile<4>) -> bool {
    file.set_cwp(2) && file.cwp() == 2
}

#[test]
fn masks_forbid_windows_but_to_traps(rt: HostRuntime) {
    let mut file = RegFile::<4>::new();
    assert!(rt; each_reads_back(&mut file));
    assert!(rt; masks_forbid(&mut file) && traps_and_returns(&mut file));
    assert!(rt; goes_to_a_window(&mut file));
}

#[test]
fn laws_return(_rt: HostRuntime) {
    reads_what_was_written();
    reads_others_as_before();
    writes_one_place();
    outs_are_ins_below();
}
