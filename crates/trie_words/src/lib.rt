//! How the parts of a trie stand in shared 64-bit words, several in one word: the only place where numbers are packed into one
//! another.
#![tactic(auto)]

mod entries;
mod headers;
mod laws;
mod links;
mod names;
mod pins;
mod roots;

pub use entries::{Entry, Pair};
pub use headers::{Header, Previous, Shape};
pub use laws::{
    entries_come_back, headers_come_back, links_come_back, names_come_back, pairs_come_back,
    pins_come_back, roots_come_back,
};
pub use links::Link;
pub use names::Name;
pub use pins::Pin;
pub use roots::RootWord;
