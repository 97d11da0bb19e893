//! The threads that carry out orders, and the order of the answers.

use crate::board::Board;
use crate::visits::{Visit, Visits, orders};
use sim_run_team::{Hints, Posts, Team};
use std::alloc::Global;
use std::sync::{Arc, Wait};
use std::test::Fail;
use std::thread::{self, Threads};

/// The input of a test.
#[derive(Clone, Copy)]
struct Given {
    /// The number of threads beside the main thread.
    workers: usize,
    /// The number of orders for which there is room at a post.
    room: usize,
    /// The number of looks of a waiting thread before it sleeps.
    looks: u32,
    /// The number of arrivals before one of these threads begins to work.
    begins_after: u64,
    /// The number of orders.
    orders: usize,
    /// The number of orders that must be carried out at the same time.
    at_once: u64,
    /// The order without an answer, if there is one.
    silent: Option<usize>,
}

/// Hints by which everything is handed out and a waiting thread sleeps after `looks` looks.
fn hints(looks: u32) -> Hints {
    let mut hints = Hints::all_handed_out();
    hints.looks_before_sleep = looks;
    hints
}

/// The posts of the workers, the orders, and the board that all of them use.
fn ready(alloc: Global, given: Given) -> Option<(Posts<Visits>, Vec<Visit>, Arc<Board, Global>)> {
    let posts = Posts::new(alloc, given.workers, given.room, given.looks)?;
    let board = Arc::new(alloc, Board::new()).ok()?;
    let orders = orders(alloc, given.orders, given.at_once, given.silent, &board).ok()?;
    Some((posts, orders, board))
}

/// A team's answers to visits.
fn answered<R: Threads + Wait + Sync>(rt: &R, alloc: Global, given: Given) -> Option<Vec<usize>> {
    let (posts, orders, board) = ready(alloc, given)?;
    let posts = &posts;
    let board = &*board;
    let begins_after = given.begins_after;
    let looks = given.looks;
    thread::scope(thread::scope_env(), rt, |scope| -> Option<Vec<usize>> {
        for post in 0..posts.len() {
            let _started = scope.spawn(move || {
                board.has(begins_after);
                posts.work(rt, alloc, post)
            });
        }
        let mut team = Team::new(posts, posts.len(), hints(looks));
        team.carry_out(rt, alloc, orders)
    })
}

/// A team's answers to visits if no thread is at any post.
fn answered_alone<R: Wait>(rt: &R, alloc: Global, given: Given) -> Option<Vec<usize>> {
    let (posts, orders, _board) = ready(alloc, given)?;
    let mut team = Team::new(&posts, posts.len(), hints(given.looks));
    team.carry_out(rt, alloc, orders)
}

/// Whether these are answers to as many orders, in order.
fn are_all(answers: Option<Vec<usize>>, orders: usize) -> bool {
    let Some(answers) = answers else {
        return false;
    };
    for (number, answer) in answers.iter().enumerate() {
        if *answer != number {
            return false;
        }
    }
    answers.len() == orders
}

/// The numbers of workers, of orders for which a post has room, of looks before a thread sleeps, of
/// arrivals before the workers begin, of orders, and of orders at the same time. If the last two are
/// equal, a thread that carries out two orders would leave all without an answer, as each waits for
/// all. Workers that begin late have their orders before they first look; where they begin once all
/// orders have arrived, the main thread has to carry out all of them.
static ANSWERED: [(usize, usize, u32, u64, usize, u64); 28] = [
    (1, 1, 100, 0, 2, 2),
    (2, 1, 100, 0, 3, 3),
    (3, 1, 0, 0, 4, 4),
    (3, 1, 1_000_000, 0, 4, 4),
    (7, 1, 100, 0, 8, 8),
    (15, 1, 0, 0, 16, 16),
    (1, 1, 0, 1, 2, 2),
    (3, 1, 100, 1, 4, 4),
    (3, 1, 1_000_000, 1, 4, 4),
    (3, 1, 1_000, 0, 4, 1),
    (1, 1, 100, 2, 2, 1),
    (3, 1, 0, 4, 4, 1),
    (3, 1, 100, 5, 5, 1),
    (0, 1, 0, 0, 5, 1),
    (1, 1, 100, 0, 5, 2),
    (3, 2, 100, 0, 5, 4),
    (5, 1, 0, 0, 5, 5),
    (16, 1, 100, 0, 5, 5),
    (3, 1, 100, 0, 0, 0),
    (3, 2, 100, 0, 8, 4),
    (1, 4, 0, 0, 8, 2),
    (3, 2, 100, 8, 8, 1),
    (3, 2, 0, 1, 7, 4),
    (2, 0, 100, 0, 6, 2),
    (2, 5, 1_000, 0, 4, 3),
    (1, 1, 1_000, 0, 40, 1),
    (3, 2, 100, 0, 64, 1),
    (2, 1, 0, 0, 31, 1),
];

#[test]
fn orders_are_carried_out_at_once_and_answered_in_order(rt: HostRuntime) -> Result<(), Fail> {
    for (workers, room, looks, begins_after, orders, at_once) in &ANSWERED {
        let given = Given {
            workers: *workers,
            room: *room,
            looks: *looks,
            begins_after: *begins_after,
            orders: *orders,
            at_once: *at_once,
            silent: None,
        };
        assert!(rt;
            are_all(answered(&rt, rt.alloc(), given), given.orders),
            "{workers} workers, room for {room}, {looks} looks, {orders} orders"
        );
    }
    Ok(())
}

#[test]
fn a_team_fails_where_an_order_has_no_answer(rt: HostRuntime) -> Result<(), Fail> {
    for silent in 0..4 {
        let given = Given {
            workers: 2,
            room: 1,
            looks: 100,
            begins_after: 0,
            orders: 4,
            at_once: 0,
            silent: Some(silent),
        };
        assert!(rt; answered(&rt, rt.alloc(), given).is_none(), "{silent}");
    }
    Ok(())
}

#[test]
fn orders_that_no_worker_begins_are_carried_out(rt: HostRuntime) -> Result<(), Fail> {
    let given = Given {
        workers: 2,
        room: 2,
        looks: 100,
        begins_after: 0,
        orders: 3,
        at_once: 1,
        silent: None,
    };
    let answers = answered_alone(&rt, rt.alloc(), given);
    assert!(rt; are_all(answers, given.orders));
    Ok(())
}
