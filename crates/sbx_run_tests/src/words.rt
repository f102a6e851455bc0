//! What the flat machine reads of code words, and laws: those that its definitions keep, and those of boards beside it.
use sbx_flat::laws::{
    each_step_counts, frames_come_and_go, invariants_make_safe, registers_keep_words,
};
use sbx_flat::{asked, declares, service_of, weight_of, word_at};
use sbx_image::Services;
use sbx_shows::laws::{
    annulled_turns_keep_what_is_shown, registers_read_the_same, restores_underflow, saves_overflow,
    user_turns_keep_what_is_shown,
};
use sbx_shows::window_law::runs_to_its_end;
use std::marker::Brand;
use v8_meaning::Operation;
use v8_routines::services::{
    exit_stops_the_machine, get_gives_the_next_byte, put_puts_the_low_byte_out,
};

/// The service that a word calls.
fn called(word: u32) -> Option<u32> {
    match asked(word) {
        Operation::TrapOnCondition(trap) => service_of(&trap),
        _ => None,
    }
}

/// The words of `mov 72,%o0; ta 2`.
const CODE: [u32; 2] = [0x9010_2048, 0x91d0_2002];

/// Words and what they weigh.
static WEIGHTS: [(u32, u64); 6] = [
    (0x9de3_bfa0, 25),
    (0x81e8_0000, 25),
    (0x91d0_2000, 3),
    (0x91d0_2001, 5),
    (0x91d0_2002, 5),
    (0x9202_2005, 1),
];

fn weighs(word: u32, weight: u64) -> bool {
    weight_of(&asked(word)) == weight
}

/// Whether a code word is read at its place, and none behind the last.
fn reads_places() -> bool {
    word_at(&CODE, 0x0004_0004) == Some(0x91d0_2002) && word_at(&CODE, 0x0004_0008).is_none()
}

/// Whether services are known by their number.
fn knows_services() -> bool {
    called(0x91d0_2002) == Some(2) && declares(Services::EXIT, 0) && !declares(Services::EXIT, 1)
}

#[test]
fn reads_code_words(rt: HostRuntime) {
    for (word, weight) in &WEIGHTS {
        assert!(rt; weighs(*word, *weight), "{word}");
    }
    assert!(rt; reads_places() && knows_services());
}

#[test]
fn laws_return(_rt: HostRuntime) {
    registers_keep_words();
    frames_come_and_go();
    each_step_counts();
    invariants_make_safe::<Brand>();
}

#[test]
fn laws_of_boards_return(_rt: HostRuntime) {
    exit_stops_the_machine();
    get_gives_the_next_byte();
    put_puts_the_low_byte_out();
    registers_read_the_same();
    user_turns_keep_what_is_shown();
    annulled_turns_keep_what_is_shown();
    saves_overflow();
    restores_underflow();
    runs_to_its_end();
}
