//! The order against values written by hand.

ghost use Rattle.std.specs.Prelude.{◌≡◌};

use places::{Place, Places};
use std::test::Fail;

/// The place of what changed something and isn't late.
fn on_time(moment: u64, id: u64) -> Place
    ensures step { result.step ≡ moment }
{
    Place {
        step: moment,
        on_time: true,
        moment,
        changed_nothing: false,
        id,
    }
}

/// The place of what changed something after its generation was closed.
fn late(closing: u64, moment: u64, id: u64) -> Place
    ensures step { result.step ≡ closing }
{
    Place {
        step: closing,
        on_time: false,
        moment,
        changed_nothing: false,
        id,
    }
}

/// A put through a handle whose generation was closed before the put's commit stands before the freeze
/// that closed it, and a read of an earlier moment among what was there then.
#[test]
fn puts_late_places_before_the_closing(rt: HostRuntime) -> Result<(), Fail> {
    let mut places = Places::new(rt.alloc());
    places.room()?;
    places.add(on_time(5, 0));
    places.room()?;
    places.close(9);
    places.add(on_time(9, 3));
    places.room()?;
    places.add(on_time(14, 4));
    places.room()?;
    places.add(late(9, 12, 2));
    places.room()?;
    places.add(on_time(4, 1));
    assert!(rt;
        places.order()?.as_slice() == [1, 0, 2, 3, 4].as_slice(),
        "the order"
    );
    Ok(())
}

#[test]
fn orders_three_segments(rt: HostRuntime) -> Result<(), Fail> {
    let mut places = Places::new(rt.alloc());
    places.room()?;
    places.close(1);
    places.add(on_time(3, 1));
    places.room()?;
    places.close(3);
    places.add(on_time(7, 0));
    places.room()?;
    places.add(late(3, 5, 2));
    places.room()?;
    places.add(late(1, 6, 3));
    assert!(rt;
        places.order()?.as_slice() == [3, 2, 1, 0].as_slice(),
        "the order"
    );
    Ok(())
}

fn crosses_threads<T: Send + Sync>(_value: &T) {}

#[test]
fn goes_to_other_threads(rt: HostRuntime) {
    let places = Places::new(rt.alloc());
    crosses_threads(&places);
}
