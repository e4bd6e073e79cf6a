//! The texts of histories: written exactly, and read with the first fault told.
#![tactic(auto)]

mod call_text;
mod call_words;
mod event_text;
mod fault_text;
mod fitting;
mod lines;
mod log;
mod names;
mod reading;
mod reply_text;
mod reply_words;
mod words;

pub use call_text::CallText;
pub use call_words::{call_of, opens};
pub use event_text::{EventText, OpensText, OrderText};
pub use fault_text::FaultText;
pub use fitting::events_fit;
pub use lines::header_of;
pub use names::CallName;
pub use reading::{Given, read_history};
pub use reply_text::ReplyText;
pub use text_lines::Told;
pub use words::{actor_word, handle_word};
