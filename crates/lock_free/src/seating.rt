//! Seats: what threads call a map with.

ghost use Rattle.std.specs.Prelude.{◌≡◌, ◌<◌, ◌≤◌, ◌↔◌, IfErr, IfOk, IsTrue, OnErr, OnOk};
ghost use Rattle.history.specs.declared.replies.Reply.{Reply as Answer};
ghost use Rattle.history.specs.declared.replies.Reply.TheVariants as reply;
ghost use Rattle.machine_model.specs.declared.actions.Action.TheVariants as act;
ghost use Rattle.lock_free.specs.Calling.{IsCancelled};
ghost use Rattle.lock_free.specs.Attempts.{HasEndedWith, IsEnding};
ghost use Rattle.lock_free.specs.Loading.{IsAt, IsSound};
ghost use Rattle.lock_free.specs.Opening.{Refuses};
ghost use Rattle.lock_free.specs.Places.{AreSizes, words_of};
ghost use Rattle.lock_free.specs.FirstViews.{first_view};
ghost use Rattle.lock_free.specs.RunningOn.{MayAnswer};
ghost use Rattle.lock_free.specs.SeatWords.{IsAtEnd, HasEnded};
ghost use Rattle.lock_free.specs.Stocks.{IsStock};

use crate::giving_up::give_all_up;
use crate::loads::{Actor, Words};
use crate::opening::{Board, OpenError, open as open_board, split};
use crate::pins::finish;
use crate::rules::Sees;
use crate::sizes::Sizes;
use crate::stock::Stock;
use history::Reply;
use std::alloc::{AllocError, Global};
use std::marker::Model;

/// A seat at a map. Who has it makes calls, one after another; those of different seats may overlap. What it owns stands on the heap, so
/// moving it costs little.
#[derive(Drop)]
pub struct Seat {
    pub(crate) actor: Actor,
    pub(crate) number: u8,
    pub(crate) last: u8,
    pub(crate) stock: Box<Stock>,
}

impl Model for Seat {
    ghost use Rattle.lock_free.specs.Seated.{Seated, IsSeated};

    ghost Value = { Seated };

    ghost view = { λ s. record { table = s.actor.table_id; view = s.actor.me.0 } };

    ghost invariant = { λ s. IsSeated s.actor.table_id.words s.actor.me.0 s.number s.last s.stock.value };
}

/// A map of these sizes, whose handle 0 is writable and empty, and its first seat, from which all others are split.
pub fn open(alloc: Global, sizes: Sizes) -> Result<(Board, Seat), OpenError>
    ensures board { IfOk result (λ made. (made.0.shared.table_id.words ≡ words_of sizes) × (made.0.shared.table_id.slots ≡ 0) × (made.0.shared.key ≡ sizes)) }
    ensures seat { IfOk result (λ made. (made.1.table ≡ made.0.shared.table_id) × (made.1.view ≡ first_view sizes)) }
    ensures in_range { OnOk result (AreSizes sizes) }
    ensures refused { IfErr result (λ error. Refuses sizes error) }
{
    let (board, actor) = open_board(alloc, sizes)?;
    let Ok(stock) = Box::new(alloc, Stock::new(sizes)) else {
        return Err(OpenError::Memory);
    };
    let seat = Seat {
        actor,
        number: 1,
        last: sizes.seats,
        stock,
    };
    Ok((board, seat))
}

impl Seat {
    ghost use Rattle.lock_free.specs.Seated.{HasSplit, IsResting};

    /// Its number, from 1 on: no other seat of the map has it.
    pub fn number(&self) -> u8
        ensures number { result ≡ self.now.view.actor }
        ensures low { 1 ≤ result }
    {
        self.number
    }

    /// Whether another seat can be split off.
    pub fn has_more(&self) -> bool
        ensures { IsTrue result ↔ (self.now.view.actor < self.now.view.last) }
    {
        self.number < self.last
    }

    /// The actor that it is.
    pub(crate) fn into_actor(self) -> Actor
        ensures table { result.table_id ≡ self.table }
        ensures sound { IsSound self.table.words self.view }
        ensures rests { IsResting self.view }
        ensures same { result.me.0 ≡ self.view }
    {
        self.actor
    }

    /// A seat for another thread. Without memory for it nothing has changed.
    pub fn split(&mut self, alloc: Global, words: &Words) -> Result<Seat, AllocError>
        requires table { self.old.table ≡ words.now.table_id }
        requires more { self.old.view.actor < self.old.view.last }
        ensures split { IfOk result (λ other. HasSplit self.old self.new other) }
        ensures unchanged { OnErr result (self.new ≡ self.old) }
    {
        let stock = Box::new(alloc, Stock::new(self.stock.sizes()))?;
        let number = self.last;
        // Whoever looks sees that the actors after it run nothing.
        words.load::<Sees>(&mut self.actor, 0);
        let actor = split(words, &mut self.actor);
        self.last -= 1;
        Ok(Seat {
            actor,
            number,
            last: number,
            stock,
        })
    }
}

/// Ends the operation of this seat, `seat`, with the reply to which it has come.
#[inline(always)]
pub(crate) fn end(words: &Words, actor: &mut Actor, stock: &mut Stock, seat: u8)
    requires table { actor.old.table_id ≡ words.now.table_id }
    requires sound { IsSound words.now.table_id.words actor.old.me.0 }
    requires stock { IsStock stock.old actor.old.me.0 }
    requires its { actor.old.me.0.actor ≡ seat }
    requires few { actor.old.me.0.actor ≤ actor.old.me.0.sizes.seats }
    requires ending { IsAtEnd actor.old.me.0 }
    ensures table { actor.new.table_id ≡ actor.old.table_id }
    ensures sound { IsSound words.now.table_id.words actor.new.me.0 }
    ensures stock { IsStock stock.new actor.new.me.0 }
    ensures ended { (answer : Answer) → IsAt actor.old.me.0 (act.End answer) → HasEnded actor.old.me.0 answer actor.new.me.0 }
{
    finish(words, actor, seat);
    stock.hand_over();
}

/// Ends the operation of this seat, `seat`, as one that has found no slot. What it made is free for the seat again.
#[cold]
#[inline(never)]
pub(crate) fn refuse(words: &Words, actor: &mut Actor, stock: &mut Stock, seat: u8)
    requires table { actor.old.table_id ≡ words.now.table_id }
    requires sound { IsSound words.now.table_id.words actor.old.me.0 }
    requires stock { IsStock stock.old actor.old.me.0 }
    requires its { actor.old.me.0.actor ≡ seat }
    requires few { actor.old.me.0.actor ≤ actor.old.me.0.sizes.seats }
    requires may { MayAnswer actor.old.me.0 reply.NoSlots }
    ensures table { actor.new.table_id ≡ actor.old.table_id }
    ensures sound { IsSound words.now.table_id.words actor.new.me.0 }
    ensures stock { IsStock stock.new actor.new.me.0 }
    ensures refused { IsCancelled actor.old.me.0 actor.new.me.0 }
{
    give_all_up(words, actor, stock);
    finish(words, actor, seat);
}

/// Ends the operation of this seat, `seat`, with the reply to which it has come, or as one that has found no slot. Returns that reply.
#[inline(always)]
pub(crate) fn end_with(
    words: &Words,
    actor: &mut Actor,
    stock: &mut Stock,
    seat: u8,
    answered: Option<Reply>,
) -> Reply
    requires table { actor.old.table_id ≡ words.now.table_id }
    requires sound { IsSound words.now.table_id.words actor.old.me.0 }
    requires stock { IsStock stock.old actor.old.me.0 }
    requires its { actor.old.me.0.actor ≡ seat }
    requires few { actor.old.me.0.actor ≤ actor.old.me.0.sizes.seats }
    requires ending { IsEnding actor.old.me.0 answered }
    ensures table { actor.new.table_id ≡ actor.old.table_id }
    ensures sound { IsSound words.now.table_id.words actor.new.me.0 }
    ensures stock { IsStock stock.new actor.new.me.0 }
    ensures ended { HasEndedWith actor.old.me.0 result actor.new.me.0 }
{
    match answered {
        Some(reply) => {
            end(words, actor, stock, seat);
            reply
        }
        None => {
            refuse(words, actor, stock, seat);
            Reply::NoSlots
        }
    }
}
