//! One entry of the table.

#[derive(Clone, Copy, PartialEq, Eq)]
pub(crate) enum Stage {
    Open,
    InHand,
}

#[derive(Clone, Copy)]
pub(crate) struct Entry {
    pub(crate) serial: u32,
    pub(crate) set: u16,
    pub(crate) stage: Stage,
}
