//! The commands that set a flag of the queue (CIP4 JDF 1.5, the queue commands).

/// A queue command that sets whether entries begin, or whether new ones are taken.
#[derive(Clone, Copy, Debug)]
pub enum FlagCommand {
    /// From now on no entry begins.
    Hold,
    /// Entries begin again.
    Resume,
    /// New entries are taken again.
    Open,
    /// From now on no new entry is taken.
    Close,
}
