//! Shared maps and seats that bear a name.
//!
//! A name stands for one shared map, so the type of a named seat says whose seat it is: it may lie in any container, go
//! through any channel, and be called without a premise.

ghost use Rattle.std.specs.Prelude.{◌≡◌, ◌≤◌, All, length, IfErr, IfOk};
ghost use Rattle.gate.specs.Finishing.{AreHere, IsMissing};
ghost use Rattle.gate.specs.Logs.{saturated};
ghost use Rattle.sharded_gate.specs.Shards.{calls_about};
ghost use Rattle.shared_map.specs.Asks.{about};
ghost use Rattle.shared_map.specs.Calling.{HasAsked, HasHeardOf};
ghost use Rattle.shared_map.specs.Finishing.{AreInOneOrder};
ghost use Rattle.shared_map.specs.Seats.{AreSeatsOf, IsSeatOf, no_map};
ghost use Rattle.shared_map.specs.Shards.{slots_of_all};

use crate::asks::{Ask, Request, Told};
use crate::calling::MapCalls;
use crate::maps::{MapSeat, SharedMap};
use ctrie_map::Map;
use sharded_gate::{HoldsShardedSeat, ShardCount};
use std::alloc::Global;
use std::marker::{Brand, Model, PhantomData};
use std::sync::Wait;

/// A name: it stands for one shared map. What is generic over it is called with `Brand`, and the caller's proof picks the
/// map.
pub trait MapName {
    ghost use Rattle.shared_map.specs.Seats.{MapRoom};

    /// The shared map for which it stands.
    ghost map: { MapRoom };
}

impl MapName for Brand {
    ghost map = { no_map };
}

/// The shared map for which the name stands.
#[derive(Drop)]
pub struct NamedMap<N: MapName> {
    map: SharedMap,
    name: PhantomData<N>,
}

impl<N: MapName> Model for NamedMap<N> {
    ghost use Rattle.std.specs.Prelude.{◌≡◌};
    ghost use Rattle.shared_map.specs.Seats.{MapRoom};

    ghost Value = { MapRoom };

    ghost view = { λ m. m.map };

    ghost invariant = { λ m. m.map ≡ N.map };
}

/// A seat of the shared map for which the name stands.
#[derive(Drop)]
pub struct NamedMapSeat<N: MapName> {
    seat: MapSeat,
    name: PhantomData<N>,
}

impl<N: MapName> Model for NamedMapSeat<N> {
    ghost use Rattle.shared_map.specs.Seats.{IsSeatOf, MapSeat};

    ghost Value = { MapSeat };

    ghost view = { λ s. s.seat };

    ghost invariant = { λ s. IsSeatOf N.map s.seat };
}

impl SharedMap {
    /// The map and its seats under the name that stands for it. Where memory is wanting they come back.
    pub fn named<N: MapName>(
        self,
        alloc: Global,
        seats: Vec<MapSeat>,
    ) -> Result<(NamedMap<N>, Vec<NamedMapSeat<N>>), (SharedMap, Vec<MapSeat>)>
        requires name { self ≡ N.map }
        requires seats { AreSeatsOf self seats.items }
        ensures same { IfOk result (λ named. (named.0 ≡ self) × (named.1.items ≡ seats.items)) }
        ensures back { IfErr result (λ back. (back.0 ≡ self) × (back.1.items ≡ seats.items)) }
    {
        let Ok(mut named) = Vec::with_capacity(alloc, seats.len()) else {
            return Err((self, seats));
        };
        for seat in seats {
            let _ = named.push(NamedMapSeat::new(seat));
        }
        let map = NamedMap {
            map: self,
            name: PhantomData,
        };
        Ok((map, named))
    }
}

impl<N: MapName> NamedMapSeat<N> {
    /// The seat under its map's name.
    fn new(seat: MapSeat) -> NamedMapSeat<N>
        requires { IsSeatOf N.map seat }
        ensures { result ≡ seat }
    {
        NamedMapSeat {
            seat,
            name: PhantomData,
        }
    }

    /// The seat is one of the map of this name.
    fn bears_name(&self)
        ensures { IsSeatOf N.map self.now }
    {
        let _ = &self.seat;
    }

    /// As `MapSeat::number`.
    pub fn number(&self) -> u8
        ensures number { result ≡ self.now.seat.number }
        ensures low { 1 ≤ result }
    {
        self.seat.number()
    }

    /// As `MapSeat::last`.
    pub fn last(&self) -> ShardCount
        ensures shard { result.shard ≡ self.now.shard }
        ensures calls { result.calls ≡ saturated (length (calls_about (about self.now.seat.gate.slots) self.now.shard self.now.seat.seen.log)) }
    {
        self.seat.last()
    }
}

impl<N: MapName> NamedMap<N> {
    /// As `SharedMap::slots`.
    pub fn slots(&self) -> u64
        ensures { result ≡ slots_of_all self.now.room.first }
    {
        self.map.slots()
    }

    /// As `SharedMap::shards`.
    pub fn shards(&self) -> usize
        ensures { result ≡ length self.now.room.first }
    {
        self.map.shards()
    }

    /// As `SharedMap::ask`.
    #[inline(always)]
    pub fn ask<R: Wait>(&self, rt: &R, seat: &mut NamedMapSeat<N>, ask: Ask) -> Told
        ensures { HasAsked self.now seat.old ask result seat.new }
    {
        self.map.ask(rt, &mut seat.seat, ask)
    }

    /// As `SharedMap::hear`.
    pub fn hear<R: Wait>(&self, rt: &R, seat: &mut NamedMapSeat<N>, count: ShardCount) -> bool
        ensures { HasHeardOf self.now seat.old count result seat.new }
    {
        self.map.hear(rt, &mut seat.seat, count)
    }

    /// As `SharedMap::finish`.
    pub fn finish(
        self,
        seats: Vec<NamedMapSeat<N>>,
    ) -> Result<Vec<Map>, (NamedMap<N>, Vec<NamedMapSeat<N>>)>
        ensures order { IfOk result (λ maps. AreInOneOrder (λ s. s.seat) self seats.items maps.items) }
        ensures here { IfOk result (λ maps. AreHere (λ s. s.seat) self.room.seats seats.items) }
        ensures back { IfErr result (λ back. IsMissing (λ s. s.seat) self.room.seats seats.items × (back.0 ≡ self) × (back.1.items ≡ seats.items)) }
    {
        all_bear_name(seats.as_slice());
        let NamedMap { map, name } = self;
        match map.finish(seats) {
            Ok(maps) => Ok(maps),
            Err((map, seats)) => Err((NamedMap { map, name }, seats)),
        }
    }
}

/// Each of these seats is one of the map of this name.
fn all_bear_name<N: MapName>(seats: &[NamedMapSeat<N>])
    ensures { All (λ s. IsSeatOf N.map s) seats.now }
{
    for seat in seats {
        seat.bears_name();
    }
}

impl<N: MapName> HoldsShardedSeat<Map, Request, Told> for NamedMapSeat<N> {
    ghost seat = { λ s. s.seat };

    fn seat_number(&self) -> u8 {
        self.seat.number()
    }

    fn into_seat(self) -> MapSeat {
        let NamedMapSeat { seat, name: _ } = self;
        seat
    }
}

impl<N: MapName> MapCalls<NamedMap<N>> for NamedMapSeat<N> {
    ghost seat = { λ s. s };

    ghost shared = { λ map. map };

    ghost fits = { λ map s. Unit {0} };

    ghost kept = { λ map s is. tt };

    #[inline(always)]
    fn ask<R: Wait>(&mut self, rt: &R, map: &NamedMap<N>, ask: Ask) -> Told {
        map.ask(rt, self, ask)
    }

    fn hear<R: Wait>(&mut self, rt: &R, map: &NamedMap<N>, count: ShardCount) -> bool {
        map.hear(rt, self, count)
    }
}
