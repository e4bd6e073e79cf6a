//! The place of an operation in the legal order.

ghost use Rattle.std.specs.Prelude.{◌≡◌};
ghost use Rattle.places.specs.Places.{on_time, place_by};

use places::Place;

/// The place of an operation with this moment whose generation was closed in this step, if it was.
pub fn place_by(closing: Option<u64>, moment: u64, changed_nothing: bool, id: u64) -> Place
    ensures place { result ≡ place_by closing moment changed_nothing id }
    ensures id { result.id ≡ id }
{
    match closing {
        Some(step) if step < moment => Place {
            step,
            on_time: false,
            moment,
            changed_nothing,
            id,
        },
        _ => on_time(moment, changed_nothing, id),
    }
}

/// The place of what isn't late.
pub fn on_time(moment: u64, changed_nothing: bool, id: u64) -> Place
    ensures { result ≡ on_time moment changed_nothing id }
{
    Place {
        step: moment,
        on_time: true,
        moment,
        changed_nothing,
        id,
    }
}
