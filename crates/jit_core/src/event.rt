//! Events on the core, and what they are answered.

use code_epochs::PublishRefusal;
use rv_play::version::Version;

/// What happens next.
#[derive(Drop)]
pub enum Event {
    /// The hart with this number goes on, up to and with its next step on a shared word.
    Hart(u32),
    /// The keeper makes its next step on a shared word.
    Keeper,
    /// A version is to be published.
    Order(Version),
}

/// What an event has led to.
#[derive(Drop)]
pub enum Stepped {
    /// One step on a shared word was made.
    Moved,
    /// The ordered version has a range, and will be stored there.
    Taken,
    Nothing,
    /// Another version is being stored.
    Busy(Version),
    Refused(Version, PublishRefusal),
}
