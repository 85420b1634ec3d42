//! One thread for each node, with its seat.

ghost use Rattle.std.specs.Prelude.{◌≡◌, IfOk, IfErr, All};
ghost use Rattle.blk_drive.specs.Telling.{IsTold};
ghost use Rattle.node_seat.specs.Keeping.{start_of};
ghost use Rattle.node_seat.specs.Yards.{IsKeptBy};

use crate::gate::Gate;
use core_step::{Turn, TurnFault};
use node_seat::{Acts, Parked, SeatOf, YardOf, YardRefusedOf, close_yard, open_yard};
use std::alloc::{AllocError, Global};
use std::sync::Wait;
use std::thread;
use std::thread::Threads;

// What a thread does, step by step.
trait Steps: Drop {
    fn node(&self) -> u8;

    // One step; whether it was the last.
    fn step_on<R: Wait>(&mut self, rt: &R, alloc: Global) -> bool;
}

// A seat, and the yard that it is of.
#[derive(Drop)]
pub struct Task<'a, W: Acts> {
    seat: SeatOf<W>,
    yard: &'a YardOf<W>,
    ghost fits: { seat.seat.table_id ≡ yard.now.table.shared.table_id },
}

impl<'a, W: Acts> Task<'a, W> {
    /// One step of the seat, with its answer.
    pub fn turn<R: Wait>(&mut self, rt: &R, alloc: Global) -> Result<Turn, TurnFault> {
        self.seat.step(rt, alloc, self.yard)
    }
}

impl<'a, W: Acts> Steps for Task<'a, W> {
    fn node(&self) -> u8 {
        self.seat.number()
    }

    fn step_on<R: Wait>(&mut self, rt: &R, alloc: Global) -> bool {
        match self.turn(rt, alloc) {
            Ok(Turn::Over) | Err(_) => true,
            Ok(Turn::Waiting) => {
                thread::yield_now();
                false
            }
            Ok(_) => false,
        }
    }
}

// The steps of one node, until it is over or the yard is stopped.
fn work<R: Wait, T: Steps, G: Gate>(rt: &R, alloc: Global, mut task: T, gate: &G) {
    let mut step = 1u64;
    for _ in rt.forever() {
        gate.pass(task.node(), step);
        step = step.saturating_add(1);
        if task.step_on(rt, alloc) {
            break;
        }
    }
}

// Starts a thread for each task, and returns when all have ended. A task for which no thread can be started is left.
fn start_all<R: Threads + Wait + Sync, T: Steps + Send, G: Gate + Sync>(
    rt: &R,
    alloc: Global,
    tasks: Vec<T>,
    gate: &G,
) {
    thread::scope(thread::scope_env(), rt, |scope| {
        for task in tasks {
            if scope.spawn(move || work(rt, alloc, task, gate)).is_err() {
                continue;
            }
        }
    });
}

fn task_of<'a, W: Acts>(yard: &'a YardOf<W>, seat: SeatOf<W>) -> Task<'a, W>
    requires { seat.seat.table_id ≡ yard.now.table.shared.table_id }
{
    Task { seat, yard }
}

/// The tasks of all nodes.
pub fn tasks_of<'a, W: Acts>(
    alloc: Global,
    yard: &'a YardOf<W>,
    seats: Vec<SeatOf<W>>,
) -> Result<Vec<Task<'a, W>>, AllocError>
    requires { All (λ s. s.seat.table_id ≡ yard.now.table.shared.table_id) seats.items }
{
    let mut tasks = Vec::new(alloc);
    for seat in seats {
        tasks.push(task_of(yard, seat))?;
    }
    Ok(tasks)
}

/// Lets the nodes of a world make their events from threads of their own, and gives the world back with its stop mark once all threads
/// have ended. If a thread cannot be started, its node makes no event. If there is no memory for the list of the nodes' tasks, no thread is
/// started; if there is none for the yard, the world comes back as it was. It may wait.
pub fn lived<R: Threads + Wait + Sync, W: Acts + Send, G: Gate + Sync>(
    rt: &R,
    alloc: Global,
    world: W,
    gate: &G,
) -> Result<Parked<W>, YardRefusedOf<W>>
    requires { IsTold (W.told world) (W.world world).blocks }
    ensures kept { IfOk result (IsKeptBy W.world W.faults W.told (start_of (W.world world) (W.faults world) (W.told world))) }
    ensures back { IfErr result (λ r. r.world ≡ world) }
{
    match open_yard(alloc, world) {
        Err(refused) => Err(refused),
        Ok((yard, seats)) => {
            if let Ok(tasks) = tasks_of(alloc, &yard, seats) {
                start_all(rt, alloc, tasks, gate);
            }
            Ok(close_yard(rt, yard))
        }
    }
}
