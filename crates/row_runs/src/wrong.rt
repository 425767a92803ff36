//! What is wrong with a line.
use std::alloc::{AllocError, AllocFailed};
use std::num::{ParseIntError, TryFromIntError};

/// Why a line has no reading.
#[derive(Clone, Copy)]
pub struct Wrong(pub &'static str);

impl From<AllocError> for Wrong {
    fn from(_: AllocError) -> Wrong {
        Wrong("no memory")
    }
}

impl<T: Drop> From<AllocFailed<T>> for Wrong {
    fn from(_: AllocFailed<T>) -> Wrong {
        Wrong("no memory")
    }
}

impl From<ParseIntError> for Wrong {
    fn from(_: ParseIntError) -> Wrong {
        Wrong("no number in range")
    }
}

impl From<TryFromIntError> for Wrong {
    fn from(_: TryFromIntError) -> Wrong {
        Wrong("too long")
    }
}
