/// An entry of the refill ring, by which an application gives a buffer back (modelled on `io_uring_zcrx_rqe` of the
/// Linux uapi, io_uring.h).
#[derive(Clone, Copy, Debug, PartialEq, Eq)]
pub struct Rqe {
    /// A place in the area: the low 48 bits are its number of bytes from the area's begin, the upper 16 name the area.
    pub off: u64,
    /// How many bytes were lent. No reader looks at it.
    pub len: u32,
    /// 0; anything else makes the entry void.
    pub pad: u32,
}

/// An entry of the completion ring, which tells of a piece that was lent (modelled on `io_uring_cqe` with the
/// `io_uring_zcrx_cqe` behind it, of the Linux uapi, io_uring.h).
#[derive(Clone, Copy, Debug, PartialEq, Eq)]
pub struct Completion {
    /// The number of the flow.
    pub user_data: u64,
    /// How many bytes were lent.
    pub res: i32,
    /// 2 in each completion of a loan.
    pub flags: u32,
    /// The place of the bytes in the area, as in a refill entry.
    pub off: u64,
}
