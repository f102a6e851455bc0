//! The same programs in version 3, with depths declared.
use crate::calls::judged;
use crate::runs::{CHAINED, ECHOES, Row, accepted_of, runs_everywhere};
use crate::verdicts::is_shown;
use sbx_image::{Function, Image, Items, Parts};
use std::alloc::Global;

/// Sets the depths of functions: from the second one on they fall by one each, from a number that the first would have.
fn deepen(functions: &mut [Function], first: u16, deepest: u16) {
    let mut depth = deepest;
    for function in functions.iter_mut() {
        function.depth = depth;
        depth = depth.saturating_sub(1);
    }
    if let Some(function) = functions.first_mut() {
        function.depth = first;
    }
}

/// The parts of an image in version 3, with these depths.
fn deepened(image: Image, first: u16, deepest: u16) -> Parts {
    let mut parts = image.into_parts();
    let mut functions = parts.functions.into_vec();
    deepen(functions.as_mut_slice(), first, deepest);
    parts.functions = Items::new(functions);
    parts.version = 3;
    parts
}

/// The row's image with these depths, if there is one.
fn image_with(alloc: Global, row: &Row<'_>, first: u16, deepest: u16) -> Option<Image> {
    match row.image(alloc) {
        Some(image) => Image::from_parts(deepened(image, first, deepest)).ok(),
        None => None,
    }
}

/// Whether an image is accepted, and runs everywhere as the row says.
fn is_so(alloc: Global, image: Image, row: &Row<'_>) -> bool {
    match accepted_of(alloc, image) {
        Some(accepted) => runs_everywhere(alloc, &accepted, row),
        None => false,
    }
}

/// Whether the row's image is, with these depths.
fn is_so_with(alloc: Global, row: &Row<'_>, first: u16, deepest: u16) -> bool {
    match image_with(alloc, row, first, deepest) {
        Some(image) => is_so(alloc, image, row),
        None => false,
    }
}

/// Whether an image is refused with this line.
fn is_refused(alloc: Global, image: Image, told: &str) -> bool {
    match judged(alloc, image) {
        Ok(_accepted) => false,
        Err(refused) => is_shown(alloc, &refused.1, told),
    }
}

/// Whether the row's image is, with these depths.
fn is_refused_with(alloc: Global, row: &Row<'_>, first: u16, deepest: u16, told: &str) -> bool {
    match image_with(alloc, row, first, deepest) {
        Some(image) => is_refused(alloc, image, told),
        None => false,
    }
}

/// Whether runs are as they were with depths enough.
fn are_so(alloc: Global) -> bool {
    // 40 functions with a frame each
    is_so_with(alloc, &CHAINED, 40, 40)
        && is_so_with(alloc, &CHAINED, 256, 256)
        // one frame: there are windows enough everywhere
        && is_so_with(alloc, &ECHOES, 1, 1)
        && ECHOES.is_quiet()
}

#[test]
fn depths_leave_runs_as_they_are(rt: HostRuntime) {
    assert!(rt; are_so(rt.alloc()));
}

#[test]
fn too_little_depth_is_told(rt: HostRuntime) {
    let alloc = rt.alloc();
    // the first function, at its call of the second, whose depth is 39 too
    assert!(rt;
        is_refused_with(
            alloc,
            &CHAINED,
            39,
            40,
            "refused V20 in function 0 at 00040004"
        )
    );
    // the last function, which has a frame, and no depth is left for it
    assert!(rt;
        is_refused_with(
            alloc,
            &CHAINED,
            39,
            39,
            "refused V20 in function 39 at 0004030C"
        )
    );
    assert!(rt;
        is_refused_with(
            alloc,
            &ECHOES,
            0,
            1,
            "refused V20 in function 0 at 00040000"
        )
    );
}
