//! How much the two queues of an end hold.

/// How many items the queues of an end hold, 1 to 65,535 each.
#[derive(Clone, Copy)]
pub struct Rooms {
    /// What came and is not read.
    pub receive: u16,
    /// What was written and is not acknowledged.
    pub send: u16,
}
