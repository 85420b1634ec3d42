//! A step of a walk, with its lines.

ghost use Rattle.std.specs.Prelude.{◌≡◌, ◌++◌, false, OnOk, IfOk, decimal, option_copied};
ghost use Rattle.blk_drive.specs.Telling.{IsTold};
ghost use Rattle.core_state.specs.Worlds.{IsOfWorld, node_at};
ghost use Rattle.core_state.specs.Deaths.{after_step};
ghost use Rattle.core_state.specs.Events.{is_over, count_of};
ghost use Rattle.run_trace.specs.Reads.{read_in, own_read};
ghost use Rattle.run_trace.specs.Steps.{last_entry, dying_text, step_text};

use crate::marks::{Mark, mark_of};
use crate::reads::push_turn;
use crate::rounds::nodes_of;
use crate::texts::{push_death, push_line};
use crate::waits::{node_of, push_grants, waiting_of};
use blk_drive::ImageDev;
use core_death::{is_due, seat_event};
use core_state::World;
use core_step::{Turn, TurnFault};
use op_law::Operation;
use plain_cat::{Entry, NoMemory};
use plain_texts::push_count;
use std::alloc::Global;

// The event of a turn of a node, read off the world after it.
fn turn_read<I: ImageDev, O: Operation>(
    alloc: Global,
    w: &World<I, O>,
    node: u8,
    mark: Mark,
    turn: Turn,
) -> Result<Vec<u8>, NoMemory>
    requires { IsOfWorld w.now.world node }
    ensures { IfOk result (λ text. text.items ≡ read_in mark turn w.now.world node (node_at w.now.world.nodes node)) }
{
    let mut text = Vec::new(alloc);
    let count = nodes_of(w);
    let at = node_of(w, node);
    push_turn(
        alloc,
        &mut text,
        mark,
        turn,
        &w.core.locks,
        count,
        w.history(),
        node,
        at,
    )?;
    Ok(text)
}

// Appends the death that an entry tells, where there is one.
fn push_dying(alloc: Global, out: &mut Vec<u8>, last: Option<&Entry>) -> Result<(), NoMemory>
    ensures { OnOk result (out.new.items ≡ out.old.items ++ dying_text (option_copied last.entry)) }
{
    match last {
        Some(entry) => push_death(alloc, out, entry),
        None => Ok(()),
    }
}

// The death that is the last entry of a history.
fn death_read<I: ImageDev, O: Operation>(
    alloc: Global,
    w: &World<I, O>,
) -> Result<Vec<u8>, NoMemory>
    ensures { IfOk result (λ text. text.items ≡ dying_text (last_entry w.now.world.history)) }
{
    let mut text = Vec::new(alloc);
    push_dying(alloc, &mut text, w.history().items().last())?;
    Ok(text)
}

// The number of a node's last turn.
fn turn_number<I: ImageDev, O: Operation>(
    alloc: Global,
    w: &World<I, O>,
    node: u8,
) -> Result<Vec<u8>, NoMemory>
    requires { IsOfWorld w.now.world node }
    ensures { IfOk result (λ text. text.items ≡ decimal (count_of (λ s. s.turns) w.now.world node)) }
{
    let mut text = Vec::new(alloc);
    push_count(alloc, &mut text, w.turns(node) as usize)?;
    Ok(text)
}

// Appends the line of a turn, or of the death in its place.
#[tactic(auto, unfolding(crate::specs::Reads::own_read))]
fn push_own<I: ImageDev, O: Operation>(
    alloc: Global,
    out: &mut Vec<u8>,
    step: usize,
    w: &World<I, O>,
    node: u8,
    dies: bool,
    mark: Mark,
    turn: Turn,
) -> Result<(), NoMemory>
    requires { IsOfWorld w.now.world node }
    ensures { OnOk result (out.new.items ≡ out.old.items ++ own_read step w.now.world node dies mark turn) }
{
    if dies {
        let text = death_read(alloc, w)?;
        push_line(alloc, out, step, node, b"-", text.as_slice())
    } else {
        let number = turn_number(alloc, w, node)?;
        let text = turn_read(alloc, w, node, mark, turn)?;
        push_line(alloc, out, step, node, number.as_slice(), text.as_slice())
    }
}

/// The step of a node that is not over: its turn, or the death in its place, as `seat_event` makes it; and its lines are appended.
pub fn step<I: ImageDev, O: Operation>(
    alloc: Global,
    out: &mut Vec<u8>,
    w: &mut World<I, O>,
    number: usize,
    node: u8,
) -> Result<(), TurnFault>
    requires node { IsOfWorld w.old.world node }
    requires alive { is_over w.old.world node ≡ false }
    ensures moved { OnOk result (w.new.world ≡ after_step w.old.world node) }
    ensures text { OnOk result (out.new.items ≡ out.old.items ++ step_text number w.old.world node) }
    ensures drive { OnOk result (IsTold (I.told w.old.image) w.old.world.blocks → IsTold (I.told w.new.image) w.new.world.blocks) }
{
    let dies = is_due(w, node);
    let before = waiting_of(alloc, w, nodes_of(w))?;
    let mark = mark_of(&w.core.locks, node, node_of(w, node));
    let turn = seat_event(alloc, w, node)?;
    push_own(alloc, out, number, w, node, dies, mark, turn)?;
    push_grants(alloc, out, number, w, &before)?;
    Ok(())
}
