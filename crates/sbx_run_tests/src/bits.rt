//! The worked image, with each of its bits turned.
use crate::calls::{finished_on, judged, read};
use sbx_image::{Image, ImageFault};
use sbx_run::{Accepted, Cause, Refusal, budget};
use std::alloc::Global;

/// `mov 72,%o0; ta 2; mov 105,%o0; ta 2; mov 0,%o0; ta 0`, with the services exit and put.
const HELLO: [u8; 86] = [
    0x53, 0x42, 0x58, 0x38, 0x00, 0x01, 0x00, 0x05, 0x00, 0x00, 0x00, 0x06, 0x00, 0x00, 0x00, 0x00,
    0x00, 0x01, 0x00, 0x01, 0x90, 0x10, 0x20, 0x48, 0x91, 0xD0, 0x20, 0x02, 0x90, 0x10, 0x20, 0x69,
    0x91, 0xD0, 0x20, 0x02, 0x90, 0x10, 0x20, 0x00, 0x91, 0xD0, 0x20, 0x00, 0x00, 0x00, 0x00, 0x00,
    0x00, 0x04, 0x00, 0x00, 0x00, 0x00, 0x00, 0x00, 0x00, 0x00, 0x00, 0x00, 0x00, 0x00, 0x00, 0x00,
    0x00, 0x00, 0x00, 0x10, 0x00, 0x01, 0x00, 0x04, 0x00, 0x00, 0x00, 0x00, 0x00, 0x00, 0x00, 0x00,
    0x00, 0x00, 0x00, 0x00, 0x00, 0x10,
];

/// The bytes with one bit turned: of each byte the greatest one comes first.
fn turned(bit: usize) -> [u8; 86] {
    let mut bytes = HELLO;
    let place = bit / 8;
    if place < bytes.len() {
        bytes[place] ^= 0x80u8 >> (bit % 8);
    }
    bytes
}

/// Whether a run of an accepted image exits within its budget.
fn ends(alloc: Global, accepted: &Accepted) -> bool {
    match finished_on::<8>(alloc, accepted, b"abc") {
        Some(finished) => finished.turns <= budget(accepted.image()),
        None => false,
    }
}

/// Whether an image has a verdict, and ends where it is accepted.
fn has_a_verdict(alloc: Global, image: Image) -> bool {
    match judged(alloc, image) {
        Ok(accepted) => ends(alloc, &accepted),
        Err(_refused) => true,
    }
}

/// The fault of the version with one bit turned. As version 3 the bytes have no region where they told their bytes of
/// data, and no page of stack.
fn fault_of_version(bit: usize) -> ImageFault {
    if bit == 46 {
        ImageFault::Limit
    } else {
        ImageFault::Version
    }
}

/// Whether what is read of the bytes with one bit turned is as it has to be: the first eight bytes tell their own
/// fault, but where the version is 3.
fn is_told(alloc: Global, bit: usize) -> bool {
    match read(alloc, &turned(bit)) {
        Ok(image) => bit >= 48 && has_a_verdict(alloc, image),
        Err(fault) => match bit / 8 {
            0..=3 => fault == ImageFault::Magic,
            4..=5 => fault == fault_of_version(bit),
            6..=7 => fault == ImageFault::Service,
            _ => true,
        },
    }
}

#[test]
fn each_bit_that_is_turned_is_told(rt: HostRuntime) {
    for bit in 0..688usize {
        assert!(rt; is_told(rt.alloc(), bit), "{bit}");
    }
}

/// Why an image is refused; none where it is accepted.
fn refusal_of(alloc: Global, image: Image) -> Option<Refusal> {
    match judged(alloc, image) {
        Ok(_accepted) => None,
        Err((_image, refusal)) => Some(refusal),
    }
}

/// Whether there is an image with this bit turned.
fn is_image(alloc: Global, bit: usize) -> bool {
    read(alloc, &turned(bit)).is_ok()
}

/// Bits of the services, and where a service is called that isn't declared: without put, with get, and without exit.
static SERVICES: [(usize, Option<u32>); 3] = [
    (61, Some(0x0004_0004)),
    (62, None),
    (63, Some(0x0004_0014)),
];

/// Whether an image is accepted, or calls a service at an address that it doesn't declare.
fn calls(refusal: Option<Refusal>, undeclared: Option<u32>) -> bool {
    match (refusal, undeclared) {
        (Some(refusal), Some(address)) => {
            (refusal.function, refusal.address, refusal.cause)
                == (0, address, Cause::UndeclaredService)
        }
        (None, None) => true,
        _ => false,
    }
}

/// Whether the image with this bit turned is one, and is accepted, or calls that service.
fn is_image_that_calls(alloc: Global, bit: usize, undeclared: Option<u32>) -> bool {
    match read(alloc, &turned(bit)) {
        Ok(image) => calls(refusal_of(alloc, image), undeclared),
        Err(_fault) => false,
    }
}

#[test]
fn services_have_three_bits(rt: HostRuntime) {
    for bit in 48..61usize {
        assert!(rt; !is_image(rt.alloc(), bit), "{bit}");
    }
    for (bit, undeclared) in &SERVICES {
        assert!(rt; is_image_that_calls(rt.alloc(), *bit, *undeclared), "{bit}");
    }
}
