//! Lines of deaths and mendings, read.

ghost use Rattle.std.specs.Prelude.{◌≡◌};
ghost use Rattle.log_check.specs.Drafts.{named_stage, death_of, mending_of};

use crate::numbers::{read_node, read_short};
use crate::parts::{behind_first, rest_from};
use plain_cat::{Mended, Stage};
use run_script::part;

/// A death, as a line tells it.
#[derive(Clone, Copy, Debug, PartialEq)]
pub struct Death {
    /// 1 to 8.
    pub node: u8,

    /// How far the node's command had come.
    pub stage: Stage,

    /// How many clusters are leaked.
    pub clusters: u32,

    /// How many file numbers are leaked. The line does not tell which.
    pub numbers: u32,
}

// The stage that a word names.
#[tactic(auto, unfolding(crate::specs::Drafts::named_stage))]
fn named_stage(word: &[u8]) -> Option<Stage>
    ensures { result ≡ named_stage word.now }
{
    if word == b"idle".as_slice() {
        Some(Stage::Idle)
    } else if word == b"nothing".as_slice() {
        Some(Stage::Nothing)
    } else if word == b"charged".as_slice() {
        Some(Stage::Charged)
    } else if word == b"lost".as_slice() {
        Some(Stage::Lost)
    } else if word == b"shortened".as_slice() {
        Some(Stage::Shortened)
    } else if word == b"marked".as_slice() {
        Some(Stage::Marked)
    } else if word == b"unlinked".as_slice() {
        Some(Stage::Unlinked)
    } else if word == b"freed".as_slice() {
        Some(Stage::Freed)
    } else if word == b"both".as_slice() {
        Some(Stage::Both)
    } else if word == b"data only".as_slice() {
        Some(Stage::DataOnly)
    } else if word == b"done".as_slice() {
        Some(Stage::Done)
    } else {
        None
    }
}

/// The death that a line tells, behind its number.
#[tactic(auto, unfolding(crate::specs::Drafts::death_of))]
pub fn read_death(body: &[u8]) -> Option<Death>
    ensures { result ≡ death_of body.now }
{
    if part(body, b' ', 1) != b"died".as_slice() {
        return None;
    }
    let node = read_node(part(body, b' ', 0))?;
    let stage = named_stage(rest_from(part(body, b',', 0), 11))?;
    let leaks = behind_first(body, b',');
    let clusters = read_short(part(part(leaks, b',', 0), b' ', 2))?;
    let numbers = read_short(part(behind_first(leaks, b','), b' ', 1))?;
    Some(Death {
        node,
        stage,
        clusters,
        numbers,
    })
}

/// The mending that a line tells, behind its number.
#[tactic(auto, unfolding(crate::specs::Drafts::mending_of))]
pub fn read_mending(body: &[u8]) -> Option<Mended>
    ensures { result ≡ mending_of body.now }
{
    if part(body, b' ', 0) != b"rebuilt:".as_slice() {
        return None;
    }
    let entered = read_short(part(body, b' ', 1))?;
    let removed = read_short(part(body, b' ', 3))?;
    let gone = read_short(part(body, b' ', 6))?;
    let clusters = read_short(part(body, b' ', 9))?;
    let numbers = read_short(part(body, b' ', 11))?;
    Some(Mended {
        entered,
        removed,
        gone,
        clusters,
        numbers,
    })
}
