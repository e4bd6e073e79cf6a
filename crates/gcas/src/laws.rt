//! A law of what actions do to the heap.

ghost use Rattle.gcas.specs.Acted.{ActsOnHeap};

/// A law: what an action does to the heap doesn't depend on what stands beside it in the machine's state.
pub fn acts_on_heap()
    ensures { ActsOnHeap }
{}
