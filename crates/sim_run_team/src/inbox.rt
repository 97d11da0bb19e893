//! Messages for a thread that may wait for them.

ghost use Rattle.std.specs.Prelude.{◌<◌};

use crate::bell::Bell;
use crossbeam_queue::ArrayQueue;
use std::alloc::{AllocError, Global};
use std::hint::spin_loop;
use std::sync::Wait;
use std::sync::atomic::{AtomicU64, Ordering};

/// Room for some messages. One thread waits here for the next; any thread may take out one that was
/// not read.
#[derive(Drop)]
pub struct Inbox<T: Drop> {
    messages: ArrayQueue<T>,
    /// Wakes the thread that waits.
    bell: Bell,
    /// 1 once there will be no more messages.
    closed: AtomicU64,
}

impl<T: Drop> Inbox<T> {
    /// An empty inbox with room for `room` messages, at least one.
    pub fn new(alloc: Global, room: usize) -> Result<Inbox<T>, AllocError>
        requires { 0 < room }
    {
        Ok(Inbox {
            messages: ArrayQueue::new(alloc, room)?,
            bell: Bell::new(),
            closed: AtomicU64::new(0),
        })
    }

    /// Puts a message in, and wakes the thread that waits for it. The message comes back if there
    /// is no room.
    pub fn put<R: Wait>(&self, rt: &R, message: T) -> Result<(), T> {
        self.messages.push(rt, message)?;
        self.bell.ring();
        Ok(())
    }

    /// Takes the first message out, if there is one.
    pub fn take<R: Wait>(&self, rt: &R) -> Option<T> {
        self.messages.pop(rt)
    }

    /// Ends the wait for messages.
    pub fn close(&self) {
        self.closed.store(1, Ordering::SeqCst);
        self.bell.ring();
    }

    /// Whether there will be no more messages.
    fn is_closed(&self) -> bool {
        self.closed.load(Ordering::SeqCst) != 0
    }

    /// Spins for the message, at most this many looks.
    fn seen<R: Wait>(&self, rt: &R, looks: u32) -> Option<T> {
        for _ in 0..looks {
            if let Some(message) = self.take(rt) {
                return Some(message);
            }
            spin_loop();
        }
        None
    }

    /// Looks once more, and sleeps if nothing has arrived.
    fn look_or_sleep<R: Wait>(&self, rt: &R) -> Option<T> {
        self.bell.announce();
        let message = self.take(rt);
        if message.is_some() || self.is_closed() {
            self.bell.withdraw();
        } else {
            self.bell.sleep(rt);
        }
        message
    }

    /// The next message; `None` if the inbox is closed. The thread spins for `looks` looks and then
    /// sleeps, so that another thread may have the processor.
    pub fn next<R: Wait>(&self, rt: &R, looks: u32) -> Option<T> {
        for _ in rt.forever() {
            if self.is_closed() {
                return None;
            }
            if let Some(message) = self.seen(rt, looks) {
                return Some(message);
            }
            if let Some(message) = self.look_or_sleep(rt) {
                return Some(message);
            }
        }
        None
    }
}
