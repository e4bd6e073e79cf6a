//! The lanes of actors.

ghost use Rattle.std.specs.Prelude.{◌≡◌, ℕ, ◌<◌, Some, IfOk, IsOkUnless, length, slice_get};
ghost use Rattle.history_scene.specs.Lanes.{works, actors_of, lane_of};

use ctrie_base::Refusal;
use history::Event;
use std::alloc::Global;

/// The actors that have begun something, by rising number, and for each actor's number how many of them are
/// below it.
pub fn lanes_of(alloc: Global, events: &[Event]) -> Result<(Vec<u8>, [usize; 256]), Refusal>
    ensures actors { IfOk result (λ found. found.0.items ≡ actors_of events.now) }
    ensures lanes { IfOk result (λ found. (actor : ℕ) → actor < 256 → slice_get found.1 actor ≡ Some (lane_of events.now actor)) }
    ensures only_memory { IsOkUnless result Refusal.Memory }
{
    let works = workers(events);
    let mut actors = Vec::new(alloc);
    let mut lanes = [0; 256];
    for actor in 0..256 {
        lanes[actor] = actors.len();
        if works[actor] {
            actors.push(actor as u8)?;
        }
    }
    Ok((actors, lanes))
}

/// By each actor's number, whether it has begun something.
fn workers(events: &[Event]) -> [bool; 256]
    ensures size { length result ≡ 256 }
    ensures each { (actor : ℕ) → actor < 256 → slice_get result actor ≡ Some (works events.now actor) }
{
    let mut works = [false; 256];
    for event in events {
        match event {
            Event::Begin { actor, .. } => works[*actor as usize] = true,
            Event::End { .. } => {}
        }
    }
    works
}
