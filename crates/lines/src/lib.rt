// The lines of a text, the words of a line, and what words say.
#![tactic(auto)]

mod bytes;
mod digits;
mod reading;
mod text;
mod word;

pub use bytes::split_once;
pub use digits::number;
pub use reading::{Parts, fill, read_parts};
pub use text::{Lines, next_line};
pub use word::{Words, without_comment};
