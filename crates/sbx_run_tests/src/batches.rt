//! Runs of several images one after another on one board.

use crate::calls::answers_on;
use crate::runs::{CHAINED, ECHOES, HI, Row, SILENT};
use sbx_batch::{Accepted, Batch, Finished};
use std::alloc::Global;

/// Whether these are the answers of the echo to `abc`, of the chain, and of the echo to no input, on four windows.
fn are_told(answers: &[Finished]) -> bool {
    match answers {
        [first, second, third] => {
            ECHOES.is(first, 4) && CHAINED.is(second, 4) && SILENT.is(third, 4)
        }
        _ => false,
    }
}

/// Whether the two images' answers are those.
fn follow_one_another(alloc: Global, echo: &Accepted, chain: &Accepted) -> bool {
    let batch = [
        Batch {
            image: echo,
            input: b"abc",
        },
        Batch {
            image: chain,
            input: b"",
        },
        Batch {
            image: echo,
            input: b"",
        },
    ];
    match answers_on::<4>(alloc, &batch) {
        Some(answers) => are_told(answers.as_slice()),
        None => false,
    }
}

/// The image of a row beside that of another one.
fn echo_and_chain(alloc: Global, echo: &Accepted) -> bool {
    match CHAINED.accepted(alloc) {
        Some(chain) => follow_one_another(alloc, echo, &chain),
        None => false,
    }
}

/// Whether the echo and the chain share a board.
fn share_a_board(alloc: Global) -> bool {
    match ECHOES.accepted(alloc) {
        Some(echo) => echo_and_chain(alloc, &echo),
        None => false,
    }
}

#[test]
fn one_board_serves_a_list(rt: HostRuntime) {
    assert!(rt; share_a_board(rt.alloc()));
}

/// Whether each answer is the row's, on 32 windows.
fn are_all(answers: &[Finished], row: &Row<'_>) -> bool {
    for answer in answers {
        if !row.is(answer, 32) {
            return false;
        }
    }
    true
}

/// Whether a list of so many has so many answers, and each is the row's.
fn are_so_many(alloc: Global, list: &[Batch<'_>], row: &Row<'_>) -> bool {
    match answers_on::<32>(alloc, list) {
        Some(answers) => answers.len() == list.len() && are_all(answers.as_slice(), row),
        None => false,
    }
}

/// Whether 500 runs have 500 answers, and none have none.
fn many_follow(alloc: Global, image: &Accepted) -> bool {
    are_so_many(alloc, &[Batch { image, input: b"" }; 500], &HI) && are_so_many(alloc, &[], &HI)
}

/// Whether they do of an image that is accepted.
fn many_share_a_board(alloc: Global) -> bool {
    match HI.accepted(alloc) {
        Some(hello) => many_follow(alloc, &hello),
        None => false,
    }
}

#[test]
fn long_lists_and_none_are_served(rt: HostRuntime) {
    assert!(rt; many_share_a_board(rt.alloc()));
}
