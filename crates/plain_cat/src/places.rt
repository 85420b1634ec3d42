//! Where the lines of each node stand in a script.

ghost use Rattle.std.specs.Prelude.{◌≡◌, ◌==◌, ◌<◌, ◌++◌, ℕ, [], ◌∷◌, OnOk, OnErr, get_or, if◌then◌else◌, length, slice_get};

use crate::NoMemory;
use std::alloc::Global;
use std::marker::Model;

/// Where the lines of a node stand in a script, by rising place, from 0.
#[derive(Drop)]
pub struct Places {
    list: Vec<usize>,
}

impl Model for Places {
    ghost use Rattle.std.specs.Prelude.{List, ℕ};

    ghost Value = { List ℕ };

    ghost view = { λ l. l.list.items };
}

impl Places {
    // No place.
    fn new(alloc: Global) -> Self
        ensures { result ≡ [] }
    {
        Places {
            list: Vec::new(alloc),
        }
    }

    // Adds a place at the end. A refusal of memory leaves the places as they were.
    fn push(&mut self, item: usize) -> Result<(), NoMemory>
        ensures ok { OnOk result (self.new ≡ self.old ++ item ∷ []) }
        ensures err { OnErr result (self.new ≡ self.old) }
    {
        self.list.push(item)?;
        Ok(())
    }

    // The place of the line that so many lines of the node come before.
    fn get(&self, before: u32) -> Option<usize>
        ensures { result ≡ slice_get self.now before }
    {
        self.list.get(before as usize).copied()
    }
}

// Makes sure that a node has a list of places, if still an empty one.
fn reach(all: &mut Vec<Places>, node: u8) -> Result<(), NoMemory>
    ensures same { (n : ℕ) → get_or all.new.items n [] ≡ get_or all.old.items n [] }
    ensures ok { OnOk result (node < length all.new.items) }
{
    let alloc = *all.allocator();
    while all.len() <= node as usize {
        all.push(Places::new(alloc))?;
    }
    Ok(())
}

/// Adds a place behind those of its node. A refusal of memory leaves each node's places as they were.
pub fn note(all: &mut Vec<Places>, node: u8, place: usize) -> Result<(), NoMemory>
    ensures ok { OnOk result ((n : ℕ) → get_or all.new.items n [] ≡ get_or all.old.items n [] ++ (if node == n then place ∷ [] else [])) }
    ensures err { OnErr result ((n : ℕ) → get_or all.new.items n [] ≡ get_or all.old.items n []) }
{
    reach(all, node)?;
    let own = &mut all[node as usize];
    own.push(place)
}

/// The place of the node's line that so many of its lines come before.
pub fn place_at(all: &[Places], node: u8, before: u32) -> Option<usize>
    ensures { result ≡ slice_get (get_or all.now node []) before }
{
    all.get(node as usize)?.get(before)
}
