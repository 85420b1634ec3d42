//! A yard without threads: its seats stepped in turn, and a seat that is never stepped.

ghost use Rattle.std.specs.Prelude.{IfOk, Some};
ghost use Rattle.blk_drive.specs.Telling.{IsTold};
ghost use Rattle.core_state.specs.Mounting.{IsMounted};

use blk_drive::{MemImage, Mirror};
use core_state::World;
use core_step::Turn;
use fx_text::MemIn;
use live_run::{Task, finish, mounted, tasks_of};
use node_seat::{Acts, close_yard, open_yard};
use plain_cat::NoMemory;
use rows_calls::volume;
use run_engine::{report_of, script_of};
use std::alloc::{AllocError, Global};
use std::process::Abort;
use std::sync::Wait;
use std::test::Fail;
use xqp_set::XqpOp;

// The world of a script on a fresh volume as it is mounted.
fn world_of(alloc: Global, script: &str) -> Result<World<MemImage, XqpOp>, NoMemory>
    ensures mounted { IfOk result (λ w. IsMounted w.world.blocks w.world.script w.world) }
    ensures told { IfOk result (λ w. IsTold (Some w.image.blocks) w.world.blocks) }
{
    let bytes = Vec::from_slice(alloc, script.as_bytes())?;
    let Ok(spelt) = script_of(alloc, &mut MemIn::new(bytes, Vec::new(alloc))) else {
        return Err(AllocError);
    };
    let Ok(mirror) = Mirror::load(alloc, volume(alloc)?) else {
        return Err(AllocError);
    };
    match mounted(alloc, mirror, &spelt) {
        Ok(world) => Ok(world),
        Err(_) => Err(AllocError),
    }
}

// What a seat has answered.
#[derive(Clone, Copy, Debug, PartialEq)]
struct Told {
    first: Option<Turn>,
    answers: u32,
    over: bool,
}

// A node's seat, which is stepped here without a thread.
#[derive(Drop)]
struct Stepped<'a, W: Acts> {
    task: Task<'a, W>,
    told: Told,
}

impl<'a, W: Acts> Stepped<'a, W> {
    fn step<R: Wait>(&mut self, rt: &R, alloc: Global) {
        let Ok(turn) = self.task.turn(rt, alloc) else {
            return;
        };
        if self.told.first.is_none() {
            self.told.first = Some(turn);
        }
        if turn == Turn::Answered {
            self.told.answers = self.told.answers.saturating_add(1);
        }
        self.told.over = turn == Turn::Over;
    }
}

// Steps seats in turn, so many rounds, and gives what each has answered.
fn in_turn<R: Wait, W: Acts>(
    rt: &R,
    alloc: Global,
    tasks: Vec<Task<W>>,
) -> Result<Vec<Told>, NoMemory> {
    let mut seats = Vec::new(alloc);
    for task in tasks {
        let told = Told {
            first: None,
            answers: 0,
            over: false,
        };
        seats.push(Stepped { task, told })?;
    }
    for _ in 0..1_000u16 {
        for seat in seats.iter_mut() {
            seat.step(rt, alloc);
        }
    }
    let mut all = Vec::new(alloc);
    for seat in seats.iter() {
        all.push(seat.told)?;
    }
    Ok(all)
}

// What seats have answered, how many entries the world had as their yard was closed, and its report after the run that follows.
#[derive(Drop)]
struct Left {
    told: Vec<Told>,
    entries: usize,
    report: Vec<u8>,
}

// The first `threads` seats of a yard are stepped in turn, and the others by nobody.
fn left_by<R: Wait>(rt: &R, alloc: Global, script: &str, threads: usize) -> Result<Left, NoMemory> {
    let world = world_of(alloc, script)?;
    world.keeps_the_rules();
    let Ok((yard, seats)) = open_yard(alloc, world) else {
        return Err(AllocError);
    };
    let mut tasks = tasks_of(alloc, &yard, seats)?;
    tasks.truncate(threads);
    let told = in_turn(rt, alloc, tasks)?;
    let mut closed = close_yard(rt, yard);
    let entries = closed.world.history().items().len();
    let Ok(()) = finish(alloc, &mut closed) else {
        return Err(AllocError);
    };
    match report_of(alloc, &closed.world) {
        Ok(report) => Ok(Left {
            told,
            entries,
            report,
        }),
        Err(_) => Err(AllocError),
    }
}

// A report has to be this.
fn check(rt: &impl Abort, left: &Left, report: &str) {
    assert_eq!(rt;
        str::from_utf8(left.report.as_slice()).unwrap_or("no text"),
        report
    );
}

// A seat has to have answered each of so many commands, and then Over.
fn check_seat(rt: &impl Abort, told: Option<&Told>, answers: u32) {
    let Some(told) = told else {
        assert!(rt; false, "no seat");
        return;
    };
    assert!(rt; told.over && told.answers == answers, "{told:?}");
}

// Two seats are stepped in turn until both are over: each has answered its command, and the world that the yard gives back has both answers.
#[test]
fn seats_in_turn(rt: HostRuntime) -> Result<(), Fail> {
    let alloc = rt.alloc();
    let script = "NODES 2\n1 LOOKUP R1 MFD INDEXF.SYS;1\n2 LOOKUP R1 MFD INDEXF.SYS;1\n";
    let left = left_by(&rt, alloc, script, 2)?;
    check_seat(&rt, left.told.first(), 1);
    check_seat(&rt, left.told.last(), 1);
    assert_eq!(&rt; left.entries, 2);
    check(
        &rt,
        &left,
        "1 N1 LOOKUP R1 (4,4,0) INDEXF.SYS;1 = (1,1,0) INDEXF.SYS;1\n\
        2 N2 LOOKUP R1 (4,4,0) INDEXF.SYS;1 = (1,1,0) INDEXF.SYS;1\n\
        end: 2 answered, 0 died, 231 free\n",
    );
    Ok(())
}

// Both nodes create in one directory. Node 1 asks for its lock first, so the first step of node 2 answers Waiting.
#[test]
fn a_seat_waits(rt: HostRuntime) -> Result<(), Fail> {
    let alloc = rt.alloc();
    let script = "NODES 2\n1 CREATE R1 MFD A.TXT;0 4 [1,4]\n2 CREATE R1 MFD A.TXT;0 4 [1,4]\n";
    let left = left_by(&rt, alloc, script, 2)?;
    check_seat(&rt, left.told.first(), 1);
    check_seat(&rt, left.told.last(), 1);
    let second = left.told.last().and_then(|told| told.first);
    assert!(&rt; second == Some(Turn::Waiting));
    assert_eq!(&rt; left.entries, 2);
    check(
        &rt,
        &left,
        "1 N1 CREATE R1 (4,4,0) A.TXT;0 4 [1,4] = (12,1,0) A.TXT;1\n\
        2 N2 CREATE R1 (4,4,0) A.TXT;0 4 [1,4] = (13,1,0) A.TXT;2\n\
        end: 2 answered, 0 died, 229 free\n",
    );
    Ok(())
}

// The seat of node 2 is never stepped, as if no thread could be started for it: its commands come after those of node 1, in the run that
// follows.
#[test]
fn a_seat_is_left(rt: HostRuntime) -> Result<(), Fail> {
    let alloc = rt.alloc();
    let script = "NODES 2\n1 LOOKUP R1 MFD INDEXF.SYS;1\n2 LOOKUP R1 MFD BITMAP.SYS;1\n\
        1 LOOKUP R1 MFD BITMAP.SYS;1\n2 LOOKUP R1 MFD INDEXF.SYS;1\n";
    let left = left_by(&rt, alloc, script, 1)?;
    check_seat(&rt, left.told.first(), 2);
    assert_eq!(&rt; left.entries, 2);
    check(
        &rt,
        &left,
        "1 N1 LOOKUP R1 (4,4,0) INDEXF.SYS;1 = (1,1,0) INDEXF.SYS;1\n\
        2 N1 LOOKUP R1 (4,4,0) BITMAP.SYS;1 = (2,2,0) BITMAP.SYS;1\n\
        3 N2 LOOKUP R1 (4,4,0) BITMAP.SYS;1 = (2,2,0) BITMAP.SYS;1\n\
        4 N2 LOOKUP R1 (4,4,0) INDEXF.SYS;1 = (1,1,0) INDEXF.SYS;1\n\
        end: 4 answered, 0 died, 231 free\n",
    );
    Ok(())
}
