//! Where things stand in the picture, in pixels.

ghost use Rattle.std.specs.Prelude.{◌≡◌, ◌<◌, ◌^◌};
ghost use Rattle.std.specs.Option.{option_copied};
ghost use Rattle.scene_svg.specs.Geometry.{x_of, lane_y, bar_y, span_of, reason_width, width_of, bottom_of, height_of, point_x, point_y};

use history_scene::{Bar, Scene, Stand};

/// Where an event stands.
pub fn x_of(event: usize) -> u128
    ensures { result ≡ x_of event }
{
    96 * event as u128 + 112
}

/// The top of a lane.
pub fn lane_y(lane: usize) -> u128
    ensures { result ≡ lane_y lane }
{
    72 * lane as u128 + 64
}

/// The top of a bar in a lane.
pub fn bar_y(lane: usize) -> u128
    ensures place { result ≡ bar_y lane }
    ensures bound { result < 2 ^ 80 }
{
    lane_y(lane) + 24
}

/// How many events further a bar ends; a bar that is open ends after the last of this many events.
pub fn span_of(bar: &Bar, events: usize) -> u128
    ensures span { result ≡ span_of bar.now events }
    ensures bound { result < 2 ^ 64 }
{
    bar.to.unwrap_or(events).saturating_sub(bar.from) as u128
}

/// How wide the picture is: as the events and the reason, and at least as the legend.
pub fn width_of(scene: &Scene) -> u128
    ensures { result ≡ width_of scene.now }
{
    let events = 96 * scene.events as u128 + 128;
    events.max(reason_width(scene.reason.as_ref()).max(820))
}

/// How wide the line with the reason is, at most.
fn reason_width(reason: Option<&String>) -> u128
    ensures { result ≡ reason_width (option_copied reason.entry) }
{
    match reason {
        Some(reason) => 8 * reason.len() as u128 + 128,
        None => 0,
    }
}

/// The bottom of the lanes.
pub fn bottom_of(scene: &Scene) -> u128
    ensures { result ≡ bottom_of scene.now }
{
    lane_y(scene.actors.len())
}

/// How high the picture is: below the lanes stand the reason and the legend.
pub fn height_of(scene: &Scene) -> u128
    ensures { result ≡ height_of scene.now }
{
    bottom_of(scene) + 196
}

/// Where the line of the order passes an operation that stands so: half a step after its moment.
pub fn point_x(stand: &Stand) -> u128
    ensures { result ≡ point_x stand.now }
{
    x_of(stand.moment) + 48
}

/// And at half the height of its bar.
pub fn point_y(lane: usize) -> u128
    ensures { result ≡ point_y lane }
{
    bar_y(lane) + 19
}
