//! Denials as numbers.
ghost use Rattle.std.specs.Prelude.{◌≡◌, ◌≢◌, ℕ, List};
ghost use Rattle.geyserpan.specs.Denials.{Explains, IsDenial, fault_number};
ghost use Rattle.geyserpan.specs.declared.terms.Terms.{Terms};

use crate::admitting::Denial;
use crate::statuses::{
    HANDLE, MEMORY, NO_IMAGE, OK, OUTPUT, REFUSED, ROOM, SERVICES, TURNS, WINDOWS,
};
use crate::terms::{Terms, Why};
use sbx_image::ImageFault;

/// The number of want of memory among the faults of the bytes.
const NO_MEMORY_FAULT: u32 = 9;
/// The number of want of memory among the rules.
const NO_MEMORY_RULE: u32 = 19;

/// The number of a fault of the bytes, 1 to 9.
fn fault_number(fault: ImageFault) -> u32
    ensures { result ≡ fault_number fault }
{
    match fault {
        ImageFault::Short => 1,
        ImageFault::Magic => 2,
        ImageFault::Version => 3,
        ImageFault::Service => 4,
        ImageFault::Limit => 5,
        ImageFault::Trailing => 6,
        ImageFault::Order => 7,
        ImageFault::Range => 8,
        ImageFault::Memory(_want) => NO_MEMORY_FAULT,
    }
}

/// The status of a denial. What tells why is written where the status is NO_IMAGE or REFUSED.
pub fn tell(denial: Denial, why: &mut Why) -> u32
    ensures denied { (bytes : List ℕ) → (terms : Terms) → Explains bytes terms denial →
        IsDenial bytes terms result why.new }
    ensures stays { result ≢ NO_IMAGE → result ≢ REFUSED → why.new ≡ why.old }
    ensures denies { result ≢ OK }
    ensures fits { result ≢ ROOM }
    ensures grants { result ≢ OUTPUT }
    ensures holds { result ≢ HANDLE }
{
    match denial {
        Denial::Image(fault) => {
            let number = fault_number(fault);
            if number == NO_MEMORY_FAULT {
                return MEMORY;
            }
            *why = Why {
                number,
                function: 0,
                address: 0,
            };
            NO_IMAGE
        }
        Denial::Refused(refusal) => {
            let number = u32::from(refusal.cause.number());
            if number == NO_MEMORY_RULE {
                return MEMORY;
            }
            *why = Why {
                number,
                function: u32::from(refusal.function),
                address: refusal.address,
            };
            REFUSED
        }
        Denial::Windows => WINDOWS,
        Denial::Services => SERVICES,
        Denial::Turns => TURNS,
    }
}
