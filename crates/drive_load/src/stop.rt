// Why an operation isn't answered.
use drive_script::operations::NoOperation;
use std::alloc::{AllocError, AllocFailed};
use std::num::TryFromIntError;

#[derive(Clone, Copy, Debug, PartialEq, Eq)]
pub enum Stop {
    // Its arguments end too early, or one is past its limit.
    NotWhole,
    OutOfMemory,
}

impl From<NoOperation> for Stop {
    fn from(_e: NoOperation) -> Stop {
        Stop::NotWhole
    }
}

impl From<TryFromIntError> for Stop {
    fn from(_e: TryFromIntError) -> Stop {
        Stop::NotWhole
    }
}

impl From<AllocError> for Stop {
    fn from(_e: AllocError) -> Stop {
        Stop::OutOfMemory
    }
}

impl<T: Drop> From<AllocFailed<T>> for Stop {
    fn from(_e: AllocFailed<T>) -> Stop {
        Stop::OutOfMemory
    }
}
