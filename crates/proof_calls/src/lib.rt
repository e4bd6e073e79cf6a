//! What the calls that are changed in place do to contents and to roots, in the words of the map.
//!
//! A step of a call is proved to be the definition's (`KeyOp::step` of `operate`; `CopyOp::step` and `Walk::step` of
//! `snapshot`), and the laws of `proof_updates` and `proof_order` say what each step of the definition does to the contents and
//! the roots of handles. Here both are put together: which of a call's steps change content, and how, and where they swap a root.
#![tactic(auto)]

mod laws;

pub use laws::{contents_of_key_steps, roots_change_as_expected};
