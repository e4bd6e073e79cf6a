//! Objects in shards, that a gate keeps.
ghost use Rattle.std.specs.Prelude.{◌≡◌, ◌<◌, ℕ, List, Option, None, IfSome, length};
ghost use Rattle.sharded_gate.specs.Shards.{AnswersAlone};
ghost use Rattle.sharded_gate.specs.Visiting.{HasVisited};

/// What is done with one shard, where a call is about all of them.
pub trait Visit<O> {
    /// Whether the visitor and the shard, as they were, may become these.
    ghost does: { Self → O → Self → O → Type 0 };

    /// Sees the shard, and may change it.
    fn visit(&mut self, shard: &mut O)
        ensures { does self.old shard.old self.new shard.new };
}

/// All shards of an object, in the hand of one seat.
pub trait Shards<O> {
    /// What else stands beside the shards.
    ghost Rest: { Type 0 };

    /// The shards, in their order.
    ghost items: { Self → List O };

    /// What no visit changes.
    ghost rest: { Self → Rest };

    /// How many there are.
    fn count(&self) -> usize
        ensures { result ≡ length (items self.now) };

    /// Has the visitor see one of them.
    fn visit<V: Visit<O>>(&mut self, shard: usize, visitor: &mut V)
        requires { shard < length (items self.old) }
        ensures visited { HasVisited V.does shard visitor.old visitor.new (items self.old) (items self.new) }
        ensures rest { rest self.new ≡ rest self.old };
}

/// One shard of an object whose calls are made one at a time at each of its shards. C is what the object can be asked, A
/// what it answers.
pub trait Sharded<C, A> {
    /// Whether the whole, whose shards were these, may answer this to the call of the seat of this number, and its shards
    /// be these then.
    ghost answers: { ℕ → List Self → C → A → List Self → Type 0 };

    /// Of a whole in this many shards, the one that the call is about, or none where it is about all.
    ghost about: { ℕ → C → Option ℕ };

    /// The shard that the call is about, or none where it is about all.
    fn shard_about(call: &C, shards: usize) -> Option<usize>
        requires { 0 < shards }
        ensures about { result ≡ about shards call.now }
        ensures within { IfSome result (λ shard. shard < shards) };

    /// Performs the call of the seat of this number, which is about this shard alone.
    fn perform(&mut self, seat: u8, call: C) -> A
        ensures { AnswersAlone answers about seat self.old call result self.new };

    /// Performs the call of the seat of this number, which is about all shards.
    fn perform_all<S: Shards<Self>>(shards: &mut S, seat: u8, call: C) -> A
        requires { about (length (S.items shards.old)) call ≡ None }
        ensures answered { answers seat (S.items shards.old) call result (S.items shards.new) }
        ensures rest { S.rest shards.new ≡ S.rest shards.old };
}
