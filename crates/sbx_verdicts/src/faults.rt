//! Why a line isn't compared.
use sbx_image::ImageFault;
use std::alloc::{AllocError, AllocFailed};
use want::Want;

/// Why a line isn't compared.
#[derive(Clone, Copy)]
pub enum LineFault {
    /// The line isn't of one of the two forms, or is about no image.
    NotRead,
    /// Memory was refused.
    Memory(Want),
}

impl From<AllocError> for LineFault {
    fn from(error: AllocError) -> LineFault {
        LineFault::Memory(Want::from(error))
    }
}

impl<T: Drop> From<AllocFailed<T>> for LineFault {
    fn from(failed: AllocFailed<T>) -> LineFault {
        LineFault::Memory(Want::from(failed))
    }
}

impl From<ImageFault> for LineFault {
    fn from(fault: ImageFault) -> LineFault {
        match fault {
            ImageFault::Memory(want) => LineFault::Memory(want),
            _ => LineFault::NotRead,
        }
    }
}
