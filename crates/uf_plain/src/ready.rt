//! Why a store isn't ready.

/// Why a store isn't ready for a command: there is no Head, there is one already, or it isn't read.
#[derive(Clone, Copy, Debug, PartialEq, Eq)]
pub enum Ready {
    NoHead,
    HeadThere,
    BadHead,
}
