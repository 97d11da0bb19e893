//! The team of a run: how the main thread has orders carried out.

ghost use Rattle.std.specs.Prelude.{◌≡◌, ◌++◌, [], ◌∷◌, true, IfSome, map};

use crate::hints::Hints;
use crate::workers::{Placed, Posts, Work};
use std::alloc::Global;
use std::sync::Wait;

/// An order that was begun, and its answer once there is one.
#[derive(Drop)]
struct Begun<W: Work> {
    /// The number of the order.
    number: usize,
    answer: Option<W::Answer>,
}

/// The main thread's side: the posts of the workers. When it is dropped, the workers end.
pub struct Team<'a, W: Work> {
    posts: &'a Posts<W>,
    /// The number of posts that have a worker: the first ones.
    hired: usize,
    /// The number of orders of this phase that were given to workers, and that this thread has
    /// neither carried out itself nor got the answer to.
    awaited: usize,
    hints: Hints,
    kept: W::Kept,
}

impl<W: Work> Drop for Team<'_, W> {
    fn drop(self) {
        let Team {
            posts,
            hired: _,
            awaited: _,
            hints: _,
            kept,
        } = self;
        drop(kept);
        posts.close();
    }
}

impl<'a, W: Work> Team<'a, W> {
    /// The team of the workers at the first `hired` of these posts.
    pub fn new(posts: &'a Posts<W>, hired: usize, hints: Hints) -> Team<'a, W> {
        Team {
            posts,
            hired,
            awaited: 0,
            hints,
            kept: W::at_first(),
        }
    }

    /// How many processes of a phase must have something to do for it to be worth giving away, if
    /// each takes about `mean_length` steps. No phase has as many if there are no workers.
    pub fn least_processes(&self, mean_length: usize) -> usize {
        if self.hired == 0 {
            return usize::MAX;
        }
        let threads = self.hired.saturating_add(1);
        threads.saturating_mul(self.hints.least_steps_of_a_thread) / mean_length.max(1)
    }

    /// Gives an order to the worker at a post, or returns the answer if it was carried out here: if
    /// it is small, or there is no such worker, or no room for one more answer.
    fn give<R: Wait>(
        &mut self,
        rt: &R,
        alloc: Global,
        order: Placed<W::Order>,
        post: usize,
    ) -> Option<W::Answer> {
        let is_large = W::is_large(&order.of, self.hints.least_processes_of_an_order);
        let has_room = self.awaited < self.posts.room();
        if !is_large || !has_room || post >= self.hired {
            return W::carry_out(alloc, order.of, &mut self.kept);
        }
        match self.posts.give(rt, post, order) {
            Ok(()) => {
                self.awaited = self.awaited.saturating_add(1);
                None
            }
            Err(order) => W::carry_out(alloc, order.of, &mut self.kept),
        }
    }

    /// Begins an order, for the worker at a post.
    fn begin<R: Wait>(
        &mut self,
        rt: &R,
        alloc: Global,
        order: Placed<W::Order>,
        post: usize,
    ) -> Begun<W>
        ensures { result.number ≡ W.number_of_order order.of }
    {
        let number = W::order_number(&order.of);
        let answer = self.give(rt, alloc, order, post);
        Begun { number, answer }
    }

    /// Begins each order. Each worker gets as many that follow one another, so that it has the same
    /// shares each time; this thread carries out the last. `None` if memory runs out.
    fn begin_all<R: Wait>(
        &mut self,
        rt: &R,
        alloc: Global,
        orders: Vec<W::Order>,
    ) -> Option<Vec<Begun<W>>>
        ensures { IfSome result (λ v. map (λ b. b.number) v.items ≡ map W.number_of_order orders.items) }
    {
        let of_each = orders.len().div_ceil(self.hired.saturating_add(1)).max(1);
        let mut begun = Vec::with_capacity(alloc, orders.len()).ok()?;
        for order in orders {
            let place = begun.len();
            let one = self.begin(rt, alloc, Placed { place, of: order }, place / of_each);
            begun.push(one).ok()?;
        }
        Some(begun)
    }

    /// Carries out here the orders at a post that no thread has begun.
    fn take_at<R: Wait>(&mut self, rt: &R, alloc: Global, post: usize, begun: &mut [Begun<W>])
        ensures { map (λ b. b.number) begun.new ≡ map (λ b. b.number) begun.old }
    {
        for _turn in rt.forever() {
            let Some(order) = self.posts.take(rt, post) else {
                return;
            };
            let Placed { place, of } = order;
            put_at(begun, place, W::carry_out(alloc, of, &mut self.kept));
            self.awaited = self.awaited.saturating_sub(1);
        }
    }

    /// Carries out here the orders that no thread has begun.
    fn take_all<R: Wait>(&mut self, rt: &R, alloc: Global, begun: &mut [Begun<W>])
        ensures { map (λ b. b.number) begun.new ≡ map (λ b. b.number) begun.old }
    {
        for post in 0..self.hired {
            self.take_at(rt, alloc, post, begun);
        }
    }

    /// Waits for the answers to all orders that workers have begun, and puts each at its place.
    fn wait<R: Wait>(&mut self, rt: &R, begun: &mut [Begun<W>])
        ensures { map (λ b. b.number) begun.new ≡ map (λ b. b.number) begun.old }
    {
        for _answer in 0..self.awaited {
            let Some(answer) = self.posts.next_answer(rt) else {
                return;
            };
            put_at(begun, answer.place, answer.of);
        }
        self.awaited = 0;
    }

    /// Sees to it that each order that was begun is carried out.
    fn finish<R: Wait>(&mut self, rt: &R, alloc: Global, begun: &mut [Begun<W>])
        ensures { map (λ b. b.number) begun.new ≡ map (λ b. b.number) begun.old }
    {
        self.take_all(rt, alloc, begun);
        self.wait(rt, begun);
    }

    /// Has orders carried out by the workers and this thread, and returns their answers in order,
    /// each of which has the number of its order. A thread that has carried out its own orders takes
    /// those that no other has begun. `None` if the team fails: this thread or a worker had no
    /// memory. The orders and all that they held are then lost.
    pub fn carry_out<R: Wait>(
        &mut self,
        rt: &R,
        alloc: Global,
        orders: Vec<W::Order>,
    ) -> Option<Vec<W::Answer>>
        ensures { IfSome result (λ v. map W.number_of_answer v.items ≡ map W.number_of_order orders.items) }
    {
        let answers = Vec::with_capacity(alloc, orders.len()).ok()?;
        let mut begun = self.begin_all(rt, alloc, orders)?;
        self.finish(rt, alloc, begun.as_mut_slice());
        in_order(begun, answers)
    }
}

/// Puts an answer to the order at a place.
fn put_at<W: Work>(begun: &mut [Begun<W>], place: usize, answer: Option<W::Answer>)
    ensures { map (λ b. b.number) begun.new ≡ map (λ b. b.number) begun.old }
{
    if place < begun.len() {
        begun[place].answer = answer;
    }
}

/// Puts the answer to an order at the end of the answers; whether there is one, and it is no
/// other's.
fn put_answer<W: Work>(begun: Begun<W>, answers: &mut Vec<W::Answer>) -> bool
    ensures { result ≡ true → map W.number_of_answer answers.new.items
        ≡ map W.number_of_answer answers.old.items ++ begun.number ∷ [] }
{
    let Begun { number, answer } = begun;
    let Some(answer) = answer else {
        return false;
    };
    if W::answer_number(&answer) != number {
        return false;
    }
    answers.push(answer).is_ok()
}

/// These answers, followed by those to orders, in order; `None` if one has no answer of its own.
fn in_order<W: Work>(begun: Vec<Begun<W>>, answers: Vec<W::Answer>) -> Option<Vec<W::Answer>>
    ensures { IfSome result (λ v. map W.number_of_answer v.items
        ≡ map W.number_of_answer answers.items ++ map (λ b. b.number) begun.items) }
{
    let mut answers = answers;
    for one in begun {
        if !put_answer::<W>(one, &mut answers) {
            return None;
        }
    }
    Some(answers)
}
