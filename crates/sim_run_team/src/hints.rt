//! When it pays to give work to other threads.

use std::thread;
use std::thread::Threads;

/// How much work there must be for other threads to get a part of it. Only the duration of a run
/// depends on these numbers, no result.
#[derive(Clone, Copy)]
pub struct Hints {
    /// The least mean number of steps of a process. Below it, a run uses one thread: another would
    /// save less than it costs to hand out and take back what the processes own.
    pub least_steps_of_a_process: usize,
    /// The least number of steps of all processes of a phase for each thread. A run uses no more
    /// threads than get as much where all processes are due, and a phase in which they do not is
    /// carried out by the main thread: sending a thread to sleep and waking it takes a part of this.
    pub least_steps_of_a_thread: usize,
    /// The least number of processes of an order for a worker. A smaller order is carried out by
    /// the main thread.
    pub least_processes_of_an_order: usize,
    /// The number of orders of a thread in a phase. A thread that is done with its own takes those
    /// that no other has begun.
    pub orders_of_a_thread: usize,
    /// The number of times that a waiting thread looks for a message before it sleeps, so that
    /// another thread or program may have its processor.
    pub looks_before_sleep: u32,
    /// The greatest number of threads for each processor that the program may use. Where there are
    /// more, they wait for each other.
    pub threads_of_a_processor: usize,
}

impl Hints {
    /// Measured values: sleeping and being woken take some ten microseconds of a processor, and a
    /// thousand looks some thirty.
    pub const fn measured() -> Hints {
        Hints {
            least_steps_of_a_process: 16,
            least_steps_of_a_thread: 20_000,
            least_processes_of_an_order: 16,
            orders_of_a_thread: 2,
            looks_before_sleep: 1_000,
            threads_of_a_processor: 1,
        }
    }

    /// Every phase is handed out to all threads, whatever it costs, and a waiting thread soon sleeps,
    /// so that small runs exercise the threads.
    pub const fn all_handed_out() -> Hints {
        Hints {
            least_steps_of_a_process: 0,
            least_steps_of_a_thread: 0,
            least_processes_of_an_order: 0,
            orders_of_a_thread: 2,
            looks_before_sleep: 100,
            threads_of_a_processor: usize::MAX,
        }
    }

    /// The greatest number of threads that have enough to do in a phase of `steps` steps.
    pub fn busy_threads(&self, steps: usize) -> usize {
        if self.least_steps_of_a_thread == 0 {
            usize::MAX
        } else {
            steps / self.least_steps_of_a_thread
        }
    }

    /// The number of orders in a phase of a run by `threads` threads.
    pub fn orders(&self, threads: usize) -> usize {
        if threads > 1 {
            threads.saturating_mul(self.orders_of_a_thread)
        } else {
            1
        }
    }

    /// The greatest number of threads, by the number of processors, if that is known.
    pub fn most_threads<R: Threads>(&self, rt: &R) -> usize {
        match thread::available_parallelism(rt) {
            Ok(processors) => processors.get().saturating_mul(self.threads_of_a_processor),
            Err(_unknown) => usize::MAX,
        }
    }
}
