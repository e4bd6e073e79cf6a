//! What a call of a program's `step` came to.

use machine_model::Kind;

/// What a call of a program's `step` came to.
#[derive(Clone, Copy)]
pub enum Next<T> {
    /// It took a step of this kind, and the program goes on.
    More(Kind),
    /// It took no step: it wants the generation of the root, to be handed in at the next call.
    AskRoot,
    /// It took a step of this kind, the program's last one, and gives this.
    Done(Kind, T),
}
