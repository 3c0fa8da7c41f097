//! Why versions weren't published.

use thiserror::Error;

/// Why a version wasn't published.
#[derive(Clone, Copy, PartialEq, Eq, Debug, Drop, Error)]
pub enum PublishRefusal {
    /// The largest free range, in words, is below what the version needs with its header.
    #[error("no room: needs {needed} words, at most {largest} are free in a row")]
    NoRoom { needed: u64, largest: u32 },
    /// There are 1,048,576 versions, and may be no more.
    #[error("{count} versions")]
    ManyVersions { count: u32 },
    #[error("no memory")]
    NoMemory,
}

/// Why the first versions weren't published.
#[derive(Clone, Copy, PartialEq, Eq, Debug, Drop, Error)]
pub enum OpenRefusal {
    /// The first versions with their headers need more words than there are.
    #[error("no room: needs {needed} words, has {room}")]
    NoRoom { needed: u64, room: u32 },
    #[error("no memory")]
    NoMemory,
}
