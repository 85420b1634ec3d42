//! Scripts.

use dlm_core::Event;
use std::marker::Model;

/// A script: how many nodes there are, and the events in their order.
#[derive(Drop)]
pub struct Script {
    /// The number of nodes, 1 to 8.
    pub nodes: u8,

    /// At most 4,096 events.
    pub events: Vec<Event>,
}

/// Why a text is no script.
#[derive(Clone, Copy, Debug, PartialEq)]
pub enum Fault {
    /// This line, counted from 1 with those that are skipped, says nothing that may stand there, and all in front of it are
    /// good. If no line tells the nodes it is the one behind the last.
    BadLine(u32),

    /// There is a 4,097th event, and no bad line in front of it.
    TooMany,
}

impl Model for Script {
    ghost use Rattle.dlm_run.specs.Plays.{Play};

    ghost Value = { Play };

    ghost view = { λ s. record { nodes = s.nodes; events = s.events.items } };
}
