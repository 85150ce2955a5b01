//! What node threads pass between an export and its file.

/// Holds node threads back between an export and its file, and is called when the file is there. Several node threads
/// may call it at once.
pub trait Gate {
    /// Whether a node whose export of that period was answered may go on. A node asks again while the answer is no, at
    /// most as many times as its plan's `turns`, and then goes on.
    fn ask(&self, node: u8, period: u16) -> bool;

    /// That node has the file of that period.
    fn done(&self, node: u8, period: u16);
}
