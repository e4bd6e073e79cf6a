//! A bank whose branches are the shards of one object, with threads that ask for its sum in the midst of others' orders.

ghost use Rattle.std.specs.Prelude.{◌≡◌, ⊤};
ghost use Rattle.gate.specs.Seats.{IsSeatOf};
ghost use Rattle.test_gate.specs.Banks.{branch_of};

use sharded_gate::{ShardCount, Sharded, ShardedGate, ShardedSeat, Shards, Visit};
use std::alloc::AllocGlobal;
use std::process::Abort;
use std::sync::Wait;
use std::sync::atomic::{AtomicU64, Ordering};
use std::test::Fail;
use std::thread;

/// How many rounds each thread makes.
const ROUNDS: u64 = 200;

/// A branch, with money in its till and in its vault.
#[derive(Drop)]
pub struct Branch {
    pub till: u64,
    pub vault: u64,
}

/// What the bank is asked.
#[derive(Clone, Copy)]
pub enum Order {
    /// So much goes from the till of the branch to its vault, if it is there.
    Store { branch: usize, amount: u64 },
    /// So much goes from the vault of the one branch to the till of the other, if it is there.
    Send { from: usize, to: usize, amount: u64 },
    /// How much there is in all.
    Sum,
}

impl Sharded<Order, u64> for Branch {
    ghost answers = { λ _ _ _ _ _. ⊤ };

    ghost about = { branch_of };

    fn shard_about(order: &Order, branches: usize) -> Option<usize> {
        match *order {
            Order::Store { branch, amount: _ } => Some(branch % branches),
            Order::Send {
                from: _,
                to: _,
                amount: _,
            } => None,
            Order::Sum => None,
        }
    }

    fn perform(&mut self, _seat: u8, order: Order) -> u64 {
        match order {
            Order::Store { branch: _, amount } => {
                if self.till < amount {
                    return 0;
                }
                self.till -= amount;
                self.vault = self.vault.wrapping_add(amount);
                amount
            }
            _ => 0,
        }
    }

    fn perform_all<S: Shards<Branch>>(branches: &mut S, _seat: u8, order: Order) -> u64 {
        match order {
            Order::Store {
                branch: _,
                amount: _,
            } => 0,
            Order::Send { from, to, amount } => send(branches, from, to, amount),
            Order::Sum => sum(branches),
        }
    }
}

/// Counts what there is.
#[derive(Drop)]
struct Counting {
    sum: u64,
}

impl Visit<Branch> for Counting {
    ghost does = { λ _ _ _ _. ⊤ };

    fn visit(&mut self, branch: &mut Branch) {
        self.sum = self
            .sum
            .wrapping_add(branch.till)
            .wrapping_add(branch.vault);
    }
}

/// Takes so much out of a vault, if it is there.
#[derive(Drop)]
struct Drawing {
    amount: u64,
    drawn: u64,
}

impl Visit<Branch> for Drawing {
    ghost does = { λ _ _ _ _. ⊤ };

    fn visit(&mut self, branch: &mut Branch) {
        if branch.vault >= self.amount {
            branch.vault -= self.amount;
            self.drawn = self.amount;
        }
    }
}

/// Puts so much into a till.
#[derive(Drop)]
struct Paying {
    amount: u64,
}

impl Visit<Branch> for Paying {
    ghost does = { λ _ _ _ _. ⊤ };

    fn visit(&mut self, branch: &mut Branch) {
        branch.till = branch.till.wrapping_add(self.amount);
    }
}

/// Visits the branch, if there is one.
fn visit_at<S: Shards<Branch>, V: Visit<Branch>>(branches: &mut S, branch: usize, visitor: &mut V)
    ensures { S.rest branches.new ≡ S.rest branches.old }
{
    if branch < branches.count() {
        branches.visit(branch, visitor);
    }
}

/// What there is in all branches.
fn sum<S: Shards<Branch>>(branches: &mut S) -> u64
    ensures { S.rest branches.new ≡ S.rest branches.old }
{
    let mut counting = Counting { sum: 0 };
    for branch in 0..branches.count() {
        visit_at(branches, branch, &mut counting);
    }
    counting.sum
}

/// Sends so much from the one branch to the other, if it is there: how much was sent.
fn send<S: Shards<Branch>>(branches: &mut S, from: usize, to: usize, amount: u64) -> u64
    ensures { S.rest branches.new ≡ S.rest branches.old }
{
    let mut drawing = Drawing { amount, drawn: 0 };
    visit_at(branches, from, &mut drawing);
    let amount = drawing.drawn;
    visit_at(branches, to, &mut Paying { amount });
    amount
}

/// Stores in one branch, sends to the next one, and asks for the sum, again and again: how often the sum wasn't 4,000.
fn work<R: Wait>(
    rt: &R,
    bank: &ShardedGate<Branch, Order, u64>,
    seat: &mut ShardedSeat<Branch, Order, u64>,
) -> u64
    requires { IsSeatOf bank.now seat.old.seat }
    ensures { IsSeatOf bank.now seat.new.seat }
{
    let mut wrong = 0u64;
    for round in 0..ROUNDS {
        let from = (round % 4) as usize;
        let to = ((round + 1) % 4) as usize;
        bank.call(
            rt,
            seat,
            Order::Store {
                branch: from,
                amount: 7,
            },
        );
        bank.call(
            rt,
            seat,
            Order::Send {
                from,
                to,
                amount: 5,
            },
        );
        if bank.call(rt, seat, Order::Sum) != 4_000 {
            wrong = wrong.wrapping_add(1);
        }
    }
    wrong
}

/// Four branches with 1,000 each have 4,000 in all, whenever one of four threads asks, and at the end.
#[test]
fn a_sum_is_of_one_moment(rt: HostRuntime) -> Result<(), Fail> {
    let mut branches = Vec::new(rt.alloc());
    for _ in 0..4u8 {
        branches.push(Branch {
            till: 1_000,
            vault: 0,
        })?;
    }
    if branches.is_empty() {
        panic!(rt; "there are four");
    }
    let Ok((bank, mut seats)) = ShardedGate::new(rt.alloc(), branches, 4) else {
        panic!(rt; "there is memory")
    };
    let wrong = AtomicU64::new(0);
    thread::for_each_mut(
        &rt,
        seats.as_mut_slice(),
        4,
        &|_, seat| {
            wrong.fetch_add(work(&rt, &bank, seat), Ordering::SeqCst);
        },
    );
    assert_eq!(rt; wrong.load(Ordering::SeqCst), 0);
    let Ok(branches) = bank.finish(seats) else {
        panic!(rt; "all seats are there")
    };
    let mut sum = 0u64;
    for branch in branches {
        sum = sum.wrapping_add(branch.till).wrapping_add(branch.vault);
    }
    assert_eq!(rt; sum, 4_000);
    Ok(())
}

/// What the order of a seat is answered, and what the seat counts then.
fn ask<R: Wait>(
    rt: &R,
    bank: &ShardedGate<Branch, Order, u64>,
    seat: &mut ShardedSeat<Branch, Order, u64>,
    order: Order,
) -> (u64, ShardCount)
    requires { IsSeatOf bank.now seat.old.seat }
    ensures { IsSeatOf bank.now seat.new.seat }
{
    (bank.call(rt, seat, order), seat.last())
}

/// Whether a seat hears of this many orders.
fn hears<R: Wait>(
    rt: &R,
    bank: &ShardedGate<Branch, Order, u64>,
    seat: &mut ShardedSeat<Branch, Order, u64>,
    shard: usize,
    calls: u64,
) -> bool
    requires { IsSeatOf bank.now seat.old.seat }
    ensures { IsSeatOf bank.now seat.new.seat }
{
    bank.hear(rt, seat, ShardCount { shard, calls })
}

/// A branch counts the orders that are about it, or about all, whichever seat gives them. A branch that isn't there has none. A
/// try succeeds where nobody else has a branch.
#[test]
fn orders_have_numbers(rt: HostRuntime) -> Result<(), Fail> {
    let mut branches = Vec::new(rt.alloc());
    for _ in 0..2u8 {
        branches.push(Branch { till: 10, vault: 0 })?;
    }
    if branches.is_empty() {
        panic!(rt; "there are two");
    }
    let Ok((bank, mut seats)) = ShardedGate::new(rt.alloc(), branches, 2) else {
        panic!(rt; "there is memory")
    };
    let (Some(mut two), Some(mut one)) = (seats.pop(), seats.pop()) else {
        panic!(rt; "there are two")
    };
    let store = Order::Store {
        branch: 1,
        amount: 4,
    };
    let first = ShardCount { shard: 1, calls: 1 };
    assert_eq!(rt; one.last(), ShardCount { shard: 0, calls: 0 });
    assert_eq!(rt; ask(&rt, &bank, &mut one, store), (4, first));
    let of_all = ShardCount { shard: 0, calls: 1 };
    assert_eq!(rt; ask(&rt, &bank, &mut two, Order::Sum), (20, of_all));
    let third = ShardCount { shard: 1, calls: 3 };
    assert_eq!(rt; ask(&rt, &bank, &mut two, store), (4, third));
    assert!(rt; hears(&rt, &bank, &mut one, 1, 3));
    assert_eq!(rt; one.last(), third);
    assert!(rt; !hears(&rt, &bank, &mut one, 0, 2));
    assert!(rt; !hears(&rt, &bank, &mut one, 2, 1));
    let other = Order::Store {
        branch: 0,
        amount: 4,
    };
    assert_eq!(rt; bank.try_call(&mut one, other), Some(4));
    assert_eq!(rt; bank.try_call(&mut two, Order::Sum), Some(20));
    Ok(())
}
