//! Where a forward reset leads to. It is found before the end changes, since memory is asked for first.

/// Where a forward reset leads to.
#[derive(Clone, Copy)]
pub enum Forward {
    /// So many numbers ahead, for which there is room.
    Jump(u32),
    /// To a number that was passed already.
    Older,
    /// To one for which there is no room.
    Beyond,
}
