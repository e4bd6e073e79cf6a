//! Values that only clauses see.
ghost use Rattle.std.specs.Prelude.{◌≡◌, [], ◌∷◌};
ghost use Rattle.gate.specs.Marks.{alone_prop};

use ctrie_base::{Change, Trace};
use std::marker::{Model, PhantomData};

/// What a value tells that only clauses see.
pub trait Tells<T, X> {
    ghost told: { X → T };
}

/// A value that only clauses see. It takes no bytes.
#[derive(Drop)]
pub struct Mark<T> {
    trace: Trace<T>,
    ghost alone: { (value : T) × (trace.items ≡ value ∷ []) } by { alone_prop T.code trace.items },
}

const _: () = prove!(size_of::<Mark<u64>>() == 0);

impl<T> Model for Mark<T> {
    ghost Value = { T };

    ghost coded = { T.code };

    ghost view = { λ m. m.alone.0 };
}

impl<T> Mark<T> {
    /// What the reference shows.
    pub fn of(value: &T) -> Mark<T>
        ensures { result ≡ value.now }
    {
        Mark {
            trace: Trace::new().with_first(value),
        }
    }

    /// What this value tells.
    pub fn told<X, C: Tells<T, X>>(by: &X) -> Mark<T>
        ensures { result ≡ C.told by.now }
    {
        Mark {
            trace: Trace::changed::<X, Alone<C>>(&Trace::new(), by),
        }
    }

    /// The same once more.
    pub fn again(&self) -> Mark<T>
        ensures { result ≡ self.now }
    {
        Mark {
            trace: Trace::changed::<(), Same>(&self.trace, &()),
        }
    }
}

struct Same;

impl<T> Change<T, ()> for Same {
    ghost after = { λ items _. items };
}

/// What is told, alone in a list.
struct Alone<C> {
    by: PhantomData<C>,
}

impl<T, X, C: Tells<T, X>> Change<T, X> for Alone<C> {
    ghost after = { λ _ by. C.told by ∷ [] };
}
