//! The texts of the program: why something was refused, listings of code, and the module of many calls.
#![tactic(auto)]

mod calling;
mod counts;
mod page;
mod parts;
mod reading;
mod texts;
mod verifying;

pub use calling::{no_image_text, uncalled_text};
pub use counts::counts_line;
pub use parts::parts_text;
pub use reading::unread_text;
pub use texts::generate;
pub use verifying::unverified_text;
