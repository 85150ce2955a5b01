//! What a schedule is asked for.

/// How large the group of a schedule is, and up to which period it closes the batches' months.
#[derive(Clone, Copy, Debug, Drop, PartialEq)]
pub struct Request {
    /// How many nodes vote: at least 1, and with the observers at most 99.
    pub nodes: u8,
    /// How many more only observe.
    pub observers: u8,
    /// The period up to which months are closed, at most 1,199; where none is said, the last one in which a reading starts, or 1,199
    /// where one starts later. Lines `close` move it on: each of them closes the period that comes next, from 0 on, and, where none is
    /// said and a batch stands below the last of them, the period after that is closed too.
    pub through: Option<u16>,
}
