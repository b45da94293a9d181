/// Where a record lies: the place of its length field, and its length.
#[derive(Clone, Copy, Debug, PartialEq, Eq)]
pub(crate) struct Room {
    pub(crate) place: u64,
    pub(crate) length: u32,
}
