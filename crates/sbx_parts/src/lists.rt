//! Lists of an image: what holds of each item, item by item.
ghost use Rattle.std.specs.Prelude.{◌≡◌};
ghost use Rattle.std.specs.List.{AllByRecursion};
ghost use Rattle.sbx_parts.specs.Rules.{each};

use crate::fault::ImageFault;

/// An item of a list that has rules.
pub trait HasRules {
    ghost use Rattle.std.specs.Prelude.{◌≡◌, ℕ, Result};
    ghost use Rattle.sbx_parts.specs.declared.fault.ImageFault.{ImageFault};

    /// What its rules need of the image, the same for each item: the address behind the code, say.
    type Setting: Copy;

    /// What an item leaves for the next one of its list, as the last location.
    type State: Copy;

    /// What the item leaves, behind an item that left a state; or the fault of its first field that breaks a rule.
    ghost keeps: { Self.Setting → Self.State → Self → Result Self.State ImageFault };

    /// What the item leaves, or the fault of its first field that breaks a rule.
    fn check(&self, setting: Self::Setting, state: Self::State) -> Result<Self::State, ImageFault>
        ensures { result ≡ keeps setting state self.now };
}

/// Whether each item keeps its rules, one behind the other, and what the last one leaves.
pub fn check_each<T: HasRules>(
    setting: T::Setting,
    first: T::State,
    items: &[T],
) -> Result<T::State, ImageFault>
    ensures { result ≡ each (T.keeps setting) first items.now }
{
    let mut state = first;
    for item in items {
        state = item.check(setting, state)?;
    }
    Ok(state)
}

/// An item of a list, whose type says of each number that its field can hold it.
pub trait Typed {
    /// What the item's type says of its numbers.
    ghost is_typed: { Self → Type 0 };

    /// Tells what the item's type says of its numbers.
    fn fits(&self)
        ensures { is_typed self.now };
}

/// Tells it of each item.
pub fn each_fits<T: Typed>(items: &[T])
    ensures { AllByRecursion T.is_typed items.now }
{
    for item in items {
        item.fits();
    }
}
