//! Lists of things that are told one after the other.
ghost use Rattle.std.specs.Prelude.{◌≡◌, OnOk, map};
ghost use Rattle.json.specs.Tree.{json_tokens};
ghost use Rattle.inspect_json.specs.Objects.{Adds, array_of, member_tokens};

use crate::members::{close_array, open_array, put_key};
use json::Writer;
use sbx_image::Items;
use std::alloc::{AllocError, Global};

/// What is told as a value.
pub(crate) trait Told {
    ghost use Rattle.std.specs.Prelude.{OnOk};
    ghost use Rattle.json.specs.Json.{Json};
    ghost use Rattle.json.specs.Tree.{json_tokens};
    ghost use Rattle.inspect_json.specs.Objects.{Adds};

    /// The value.
    ghost told: { Self → Json };

    /// Writes the value.
    fn put(&self, alloc: Global, out: &mut Writer) -> Result<(), AllocError>
        ensures { OnOk result (Adds out.old out.new (json_tokens (told self.now))) };
}

/// Writes the values of a list as an array.
pub(crate) fn put_list<T: Told>(
    alloc: Global,
    out: &mut Writer,
    items: &[T],
) -> Result<(), AllocError>
    ensures { OnOk result (Adds out.old out.new (json_tokens (array_of (map T.told items.now)))) }
{
    open_array(out)?;
    for item in items {
        item.put(alloc, out)?;
    }
    close_array(out)
}

/// Writes a member that is such an array.
pub(crate) fn put_member<T: Told>(
    alloc: Global,
    out: &mut Writer,
    key: &str,
    items: &[T],
) -> Result<(), AllocError>
    ensures { OnOk result (Adds out.old out.new (member_tokens key.now (array_of (map T.told items.now)))) }
{
    put_key(out, key)?;
    put_list(alloc, out, items)
}

/// Writes a member that is the array of a list of an image.
pub(crate) fn put_items<T: Told>(
    alloc: Global,
    out: &mut Writer,
    key: &str,
    items: &Items<T>,
) -> Result<(), AllocError>
    ensures { OnOk result (Adds out.old out.new (member_tokens key.now (array_of (map T.told items.now)))) }
{
    put_member(alloc, out, key, items.as_slice())
}
