//! The plain map in ten lines.
#![tactic(auto)]

use ctrie_map::{Handle, HashKind, Map, MapError, slots_for};

fn main(rt: HostRuntime) -> Result<(), MapError> {
    let stock = Handle::first();
    let mut map = Map::new(rt.alloc(), slots_for(300), HashKind::Wide)?;
    map.put(stock, 7, 250)?;
    map.put(stock, 8, 40)?;
    let morning = map.freeze(stock)?;
    map.put(stock, 7, 300)?;
    map.remove(stock, 8)?;
    let (then, now) = (map.get(morning, 7)?, map.get(stock, 7)?);
    let _ = println!(rt; "{then:?} in the morning, {now:?} now");
    Ok(())
}
