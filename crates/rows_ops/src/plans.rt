//! What a command sees on a small volume, and its plan, as texts.

ghost use Rattle.std.specs.Prelude.{◌≡◌, true, nat_lt, IsTrue, Some, length};
ghost use Rattle.plain_cat.specs.InForm.{in_form};
ghost use Rattle.plain_cat.specs.Modes.{rank};
ghost use Rattle.op_law.specs.Knows.{channel_of};
ghost use Rattle.vol_faults.specs.Conditions.{IsSize};

use crate::alone::run_alone;
use crate::on_channel::run_on_channel;
use base_words::Block;
use log_check::read_command;
use op_law::{Ask, Chan, Operation, Plan, PlanWrite, Seen, Writes};
use plain_cat::{Cmd, Fid, Mode, NoMemory, Reply};
use plain_texts::push_reply;
use std::alloc::Global;
use std::process::Abort;
use xqp_set::XqpOp;

/// A node with its command, as a script has it; what it sees, the locks and then the LBN's, as `S(12) PR at 20 50`, or nothing where
/// that is not compared; and its plan. The plan has a line for each write, as `S(14) 22 Freed cluster 26 number 14`, a line for the ask,
/// and the reply. Where the command comes to a search for space it is `no plan`.
pub type Row<'a> = (&'a str, &'a str, &'a str);

// Whether a command is one of channel 1.
fn is_of_channel(cmd: &Cmd) -> bool
    ensures { IsTrue result → channel_of cmd.now ≡ Some 1 }
{
    match cmd {
        Cmd::CloseFile { chan } => *chan == 1,
        Cmd::ReadBlock { chan, .. } => *chan == 1,
        Cmd::WriteBlock { chan, .. } => *chan == 1,
        _ => false,
    }
}

// What a command of channel 1, which has file 14 open in this mode, sees at last on these blocks, and its plan, if it makes one.
fn run_open(
    alloc: Global,
    cmd: Cmd,
    blocks: &[Block],
    mode: Mode,
) -> Result<Option<(Seen, Plan)>, NoMemory>
    requires form { in_form cmd ≡ true }
    requires of { channel_of cmd ≡ Some 1 }
    requires mode { nat_lt 0 (rank mode) ≡ true }
    requires size { IsSize (length blocks.now) }
{
    let channel = Chan {
        file: Fid { num: 14, seq: 1 },
        mode,
    };
    let op = XqpOp::of(cmd);
    run_on_channel(alloc, &op, blocks, channel)
}

// What any other command sees at last on these blocks, and its plan, if it makes one.
fn run(alloc: Global, cmd: Cmd, blocks: &[Block]) -> Result<Option<(Seen, Plan)>, NoMemory>
    requires form { in_form cmd ≡ true }
    requires size { IsSize (length blocks.now) }
{
    let op = XqpOp::of(cmd);
    run_alone(alloc, &op, blocks)
}

// The same of a command, with an open file or without one.
fn run_with(
    alloc: Global,
    cmd: Cmd,
    blocks: &[Block],
    open: Option<Mode>,
) -> Result<Option<(Seen, Plan)>, NoMemory>
    requires form { in_form cmd ≡ true }
    requires size { IsSize (length blocks.now) }
{
    match open {
        None => run(alloc, cmd, blocks),
        Some(Mode::NL) => Ok(None),
        Some(mode) => {
            if !is_of_channel(&cmd) {
                return Ok(None);
            }
            run_open(alloc, cmd, blocks, mode)
        }
    }
}

// The locks, and the LBN's.
fn seen_text(alloc: Global, seen: &Seen) -> Result<String, NoMemory> {
    let mut text = String::new(alloc);
    for (name, mode) in seen.locks.items() {
        text.push_str(format!(in alloc; "{name:?} {mode:?} ")?.as_str())?;
    }
    text.push_str("at")?;
    for (lbn, _) in seen.blocks.items() {
        text.push_str(format!(in alloc; " {lbn}")?.as_str())?;
    }
    Ok(text)
}

// Numbers, each behind a word.
fn push_numbers(
    text: &mut String,
    alloc: Global,
    word: &str,
    numbers: &[u32],
) -> Result<(), NoMemory> {
    for n in numbers {
        text.push_str(format!(in alloc; " {word} {n}")?.as_str())?;
    }
    Ok(())
}

// The line of a write: its lock, its LBN, the stage behind it, and what is outside then.
fn push_write(text: &mut String, alloc: Global, write: &PlanWrite) -> Result<(), NoMemory> {
    let PlanWrite {
        lock,
        lbn,
        stage,
        ..
    } = write;
    text.push_str(format!(in alloc; "{lock:?} {lbn} {stage:?}")?.as_str())?;
    push_numbers(text, alloc, "cluster", write.clusters.items())?;
    push_numbers(text, alloc, "number", write.numbers.items())?;
    if let Some(n) = write.number {
        push_numbers(text, alloc, "number", &[n])?;
    }
    text.push_str("\n")
}

// The text of a reply.
fn reply_text(alloc: Global, reply: &Reply) -> Result<String, NoMemory> {
    let mut bytes = Vec::new(alloc);
    push_reply(alloc, &mut bytes, reply)?;
    String::from_str(alloc, str::from_utf8(bytes.as_slice()).unwrap_or("no text"))
}

// The line of an ask.
fn push_ask(text: &mut String, alloc: Global, ask: &Ask) -> Result<(), NoMemory> {
    let Ask {
        at,
        file,
        chan,
        mode,
        ..
    } = ask;
    let refused = reply_text(alloc, &ask.refused)?;
    text.push_str(format!(in alloc;
        "ask for {file} by {chan} in {mode:?} behind {at}, or {refused}\n"
    )?.as_str())
}

// The writes, the ask and the reply.
fn plan_text(alloc: Global, plan: &Plan) -> Result<String, NoMemory> {
    let mut text = String::new(alloc);
    for write in plan.writes.items() {
        push_write(&mut text, alloc, write)?;
    }
    if let Some(ask) = &plan.ask {
        push_ask(&mut text, alloc, ask)?;
    }
    text.push_str(reply_text(alloc, &plan.reply)?.as_str())?;
    Ok(text)
}

// What was seen, and the plan, have to be these.
fn check_ended(
    rt: &impl Abort,
    alloc: Global,
    row: Row<'_>,
    seen: &Seen,
    plan: &Plan,
) -> Result<(), NoMemory> {
    let (words, wanted, wanted_plan) = row;
    let made = plan_text(alloc, plan)?;
    assert_eq!(rt; made.as_str(), wanted_plan, "the plan of {words}");
    if !wanted.is_empty() {
        let text = seen_text(alloc, seen)?;
        assert_eq!(rt; text.as_str(), wanted, "what {words} has seen");
    }
    Ok(())
}

/// A command has to come to this on these blocks: the writes of its plan. With a mode it is one of channel 1, which has file 14 open in it.
pub fn check(
    rt: &impl Abort,
    alloc: Global,
    blocks: &[Block],
    open: Option<Mode>,
    row: Row<'_>,
) -> Result<Writes, NoMemory>
    requires { IsSize (length blocks.now) }
{
    let (words, _, wanted) = row;
    let Some(given) = read_command(alloc, words.as_bytes())? else {
        panic!(rt; "no command: {words}");
    };
    match run_with(alloc, given.cmd, blocks, open)? {
        Some((seen, plan)) => {
            check_ended(rt, alloc, row, &seen, &plan)?;
            Ok(plan.writes)
        }
        None => {
            assert_eq!(rt; "no plan", wanted, "the plan of {words}");
            Ok(Writes::new(alloc))
        }
    }
}

/// Each of these rows, on these blocks.
pub fn check_all(
    rt: &impl Abort,
    alloc: Global,
    blocks: &[Block],
    open: Option<Mode>,
    rows: &[Row<'_>],
) -> Result<(), NoMemory>
    requires { IsSize (length blocks.now) }
{
    for row in rows {
        check(rt, alloc, blocks, open, *row)?;
    }
    Ok(())
}

/// The k-th write, from 0, has to have these bytes at an offset of its block.
pub fn check_bytes(rt: &impl Abort, writes: &Writes, k: usize, at: usize, bytes: &[u8]) {
    let Some(write) = writes.items().get(k) else {
        assert!(rt; false, "no write {k}");
        return;
    };
    let found = write.block.get(at..at.saturating_add(bytes.len()));
    assert_eq!(rt; found, Some(bytes), "write {k} at {at}");
}

/// The writes have to be of these blocks, in order.
pub fn check_blocks(rt: &impl Abort, writes: &Writes, blocks: &[Block]) {
    assert_eq!(rt; writes.items().len(), blocks.len(), "the count of writes");
    for (write, block) in writes.items().iter().zip(blocks) {
        let lbn = write.lbn;
        assert!(rt; write.block == *block, "the block that is written to {lbn}");
    }
}
