//! Lists that only clauses see.

ghost use Rattle.std.specs.Prelude.{◌≡◌, List, [], ◌∷◌, ◌++◌, drop};
ghost use Rattle.std.specs.Borrow.{ftrue};

use std::marker::{Model, PhantomData};

/// What a value does to a list that only clauses see.
pub trait Change<T, X> {
    ghost after: { List T → X → List T };
}

/// A list that only clauses see. It takes no bytes.
#[derive(Drop)]
pub struct Trace<T> {
    of: PhantomData<T>,
    pub ghost items: { List T },
}

const _: () = prove!(size_of::<Trace<u64>>() == 0);

impl<T> Model for Trace<T> {
    ghost also_owns = { λ _. ftrue };
}

unsafe impl<T> Send for Trace<T> {}

unsafe impl<T> Sync for Trace<T> {}

impl<T> Trace<T> {
    /// Nothing.
    pub fn new() -> Trace<T>
        ensures { result.items ≡ [] }
    {
        Trace { of: PhantomData }
    }

    /// The list after a change by this value.
    pub fn changed<X, C: Change<T, X>>(_before: &Trace<T>, _by: &X) -> Trace<T>
        ensures { result.items ≡ C.after _before.now.items _by.now }
    {
        Trace { of: PhantomData }
    }

    /// The list with this one in front.
    pub fn with_first(&self, one: &T) -> Trace<T>
        ensures { result.items ≡ one.now ∷ self.now.items }
    {
        Trace::changed::<T, First>(self, one)
    }

    /// The list with this one at its end.
    pub fn with_last(&self, one: &T) -> Trace<T>
        ensures { result.items ≡ self.now.items ++ one.now ∷ [] }
    {
        Trace::changed::<T, Last>(self, one)
    }

    /// The list without its first item.
    pub fn rest(&self) -> Trace<T>
        ensures { result.items ≡ drop 1 self.now.items }
    {
        Trace::changed::<(), Rest>(self, &())
    }
}

struct First;

impl<T> Change<T, T> for First {
    ghost use Rattle.std.specs.Prelude.{◌∷◌};

    ghost after = { λ items one. one ∷ items };
}

struct Last;

impl<T> Change<T, T> for Last {
    ghost use Rattle.std.specs.Prelude.{[], ◌∷◌, ◌++◌};

    ghost after = { λ items one. items ++ one ∷ [] };
}

struct Rest;

impl<T> Change<T, ()> for Rest {
    ghost use Rattle.std.specs.Prelude.{drop};

    ghost after = { λ items _. drop 1 items };
}
