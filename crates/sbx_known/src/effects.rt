//! What a word does to what is known.
ghost use Rattle.std.specs.Prelude.{◌≡◌, if◌then◌else◌};
ghost use Rattle.sbx_rules.specs.Known.{known};
ghost use Rattle.sbx_rules.specs.Transfer.{transferred};
ghost use Rattle.sbx_image.specs.Order.{function_at};
ghost use Rattle.sbx_rules.specs.Ways.{after_call};
ghost use Rattle.sbx_known.specs.Courses.{runs};
ghost use Rattle.sbx_known.specs.Spots.{IsSpot};

use crate::courses::{Courses, runs};
use crate::places::function_at;
use crate::spot::Spot;
use sbx_image::Image;
use sbx_rules::State;
use v8_meaning::Operation;

/// What a word that runs does, in a frame of so many bytes; one that is annulled does nothing.
fn perform_if(runs: bool, frame: u32, operation: &Operation, state: &mut State)
    ensures { known state.new ≡ (if runs then transferred frame operation.now (known state.old) else known state.old) }
{
    if runs {
        state.perform(frame, operation);
    }
}

/// What a word does on its ways, where it isn't annulled: each state goes on to what is known then. A call that the
/// word ends has no effect yet.
pub fn perform_on(
    image: &Image,
    spot: &Spot,
    courses: &Courses,
    here: &mut State,
    other: &mut State,
)
    requires { IsSpot image.now spot.now }
    ensures first { known here.new ≡
        (if runs courses.now.first then transferred (function_at image.now spot.now.function).frame spot.now.operation
        (known here.old) else known here.old) }
    ensures second { known other.new ≡
        (if runs courses.now.second then transferred (function_at image.now spot.now.function).frame spot.now.operation
        (known other.old) else known other.old) }
{
    let frame = function_at(image, spot.function).frame;
    perform_if(runs(courses.first), frame, &spot.operation, here);
    perform_if(runs(courses.second), frame, &spot.operation, other);
}

/// The effect of the call whose slot a word is.
pub fn return_to(image: &Image, spot: &Spot, state: &mut State)
    requires { IsSpot image.now spot.now }
    ensures { known state.new ≡ after_call image.now spot.now.called (known state.old) }
{
    if let Some(callee) = spot.called {
        state.return_with(function_at(image, callee).results.as_slice());
    }
}
