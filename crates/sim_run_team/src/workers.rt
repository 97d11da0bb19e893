//! Workers: what they carry out, and where orders and answers wait.

ghost use Rattle.std.specs.Prelude.{◌≡◌, ◌<◌, ℕ, IfSome};

use crate::inbox::Inbox;
use std::alloc::{AllocError, Global};
use std::sync::Wait;

/// Work that any thread may carry out, one order at a time. Of an answer that another thread gives,
/// its type says all that is known, and its number, which is compared with that of the order.
pub trait Work {
    /// A part of the work.
    type Order: Drop;

    /// The result of an order.
    type Answer: Drop;

    /// The number of an order.
    ghost number_of_order: { Self.Order → ℕ };

    /// The number of the order that an answer belongs to.
    ghost number_of_answer: { Self.Answer → ℕ };

    /// What a thread keeps from one order to the next.
    type Kept: Drop;

    /// What a thread has before its first order.
    fn at_first() -> Self::Kept;

    /// The number of an order.
    fn order_number(order: &Self::Order) -> usize
        ensures { result ≡ number_of_order order.now };

    /// The number of the order that an answer belongs to.
    fn answer_number(answer: &Self::Answer) -> usize
        ensures { result ≡ number_of_answer answer.now };

    /// Whether an order has at least this many processes to execute.
    fn is_large(order: &Self::Order, least: usize) -> bool;

    /// Carries out an order; `None` if memory runs out.
    fn carry_out(alloc: Global, order: Self::Order, kept: &mut Self::Kept) -> Option<Self::Answer>
        ensures { IfSome result (λ answer. number_of_answer answer ≡ number_of_order order) };
}

/// An order or an answer, with its place among those of a phase.
#[derive(Drop)]
pub(crate) struct Placed<T: Drop> {
    pub(crate) place: usize,
    pub(crate) of: T,
}

/// The posts of the workers, at each of which the orders for one of them wait, and where all answers
/// wait for the main thread. A thread that has carried out its own orders takes those of others.
#[derive(Drop)]
pub struct Posts<W: Work> {
    orders: Vec<Inbox<Placed<W::Order>>>,
    answers: Inbox<Placed<Option<W::Answer>>>,
    /// The number of answers for which there is room.
    room: usize,
    /// The number of looks for a message before a thread sleeps.
    looks: u32,
}

/// So many inboxes, each with room for as many messages.
fn inboxes<T: Drop>(alloc: Global, count: usize, room: usize) -> Option<Vec<Inbox<T>>>
    requires { 0 < room }
{
    let mut inboxes = Vec::with_capacity(alloc, count).ok()?;
    for _inbox in 0..count {
        let inbox = Inbox::new(alloc, room).ok()?;
        inboxes.push(inbox).ok()?;
    }
    Some(inboxes)
}

impl<W: Work> Posts<W> {
    /// Posts for `workers` workers, each with room for `room` orders, at least one, and room for the
    /// answers to all of these. A thread sleeps once it has looked `looks` times for a message. `None`
    /// if memory runs out.
    pub fn new(alloc: Global, workers: usize, room: usize, looks: u32) -> Option<Posts<W>> {
        let of_each = room.max(1);
        let orders = inboxes(alloc, workers, of_each)?;
        let room = workers.saturating_mul(of_each).max(1);
        let answers = Inbox::new(alloc, room).ok()?;
        Some(Posts {
            orders,
            answers,
            room,
            looks,
        })
    }

    /// The number of posts.
    pub fn len(&self) -> usize {
        self.orders.len()
    }

    /// The number of answers for which there is room. No more orders may be given before the answers
    /// to some are taken.
    pub(crate) fn room(&self) -> usize {
        self.room
    }

    /// Gives an order to the worker at a post. It comes back if there is no such post, or no room.
    pub(crate) fn give<R: Wait>(
        &self,
        rt: &R,
        post: usize,
        order: Placed<W::Order>,
    ) -> Result<(), Placed<W::Order>> {
        if post < self.orders.len() {
            self.orders[post].put(rt, order)
        } else {
            Err(order)
        }
    }

    /// Takes an order from a post, if one is there that no thread has begun.
    pub(crate) fn take<R: Wait>(&self, rt: &R, post: usize) -> Option<Placed<W::Order>> {
        if post < self.orders.len() {
            self.orders[post].take(rt)
        } else {
            None
        }
    }

    /// The next answer. Waits for it.
    pub(crate) fn next_answer<R: Wait>(&self, rt: &R) -> Option<Placed<Option<W::Answer>>> {
        self.answers.next(rt, self.looks)
    }

    /// Ends the work: each worker is done with its last order.
    pub(crate) fn close(&self) {
        for orders in self.orders.iter() {
            orders.close();
        }
    }

    /// Carries out an order as a worker, and leaves the answer for the main thread.
    fn answer<R: Wait>(&self, rt: &R, alloc: Global, order: Placed<W::Order>, kept: &mut W::Kept) {
        let Placed { place, of } = order;
        let of = W::carry_out(alloc, of, kept);
        // There is room: no more orders are given in a phase than there is room for answers, and the
        // main thread has taken those of the phase before.
        let _ = self.answers.put(rt, Placed { place, of });
    }

    /// Carries out the orders at a post until none is left there.
    fn answer_all<R: Wait>(
        &self,
        rt: &R,
        alloc: Global,
        orders: &Inbox<Placed<W::Order>>,
        kept: &mut W::Kept,
    ) {
        for _ in rt.forever() {
            let Some(order) = orders.take(rt) else {
                return;
            };
            self.answer(rt, alloc, order, kept);
        }
    }

    /// Carries out the orders at each post that no thread has begun.
    fn help<R: Wait>(&self, rt: &R, alloc: Global, kept: &mut W::Kept) {
        for orders in self.orders.iter() {
            self.answer_all(rt, alloc, orders, kept);
        }
    }

    /// Carries out orders as the worker at a post, its own first, until the team is gone.
    pub fn work<R: Wait>(&self, rt: &R, alloc: Global, post: usize) {
        if post >= self.orders.len() {
            return;
        }
        let own = &self.orders[post];
        let mut kept = W::at_first();
        for _ in rt.forever() {
            let Some(order) = own.next(rt, self.looks) else {
                return;
            };
            self.answer(rt, alloc, order, &mut kept);
            self.answer_all(rt, alloc, own, &mut kept);
            self.help(rt, alloc, &mut kept);
        }
    }
}
