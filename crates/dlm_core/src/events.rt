//! What happens to the core, and what it answers.
//!
//! The nodes of a core are 1 to n. An owner is a part of a node: part 0 is the node's file system, and 1 to 8 are its
//! channels. A node outside that range does not live, and no part is refused.

use lock_db::{LockName, Mode, Owner};

/// One event.
#[derive(Clone, Copy, Debug, PartialEq)]
pub enum Event {
    /// An owner asks for a lock, or for another mode of the lock that it believes it has. Where the answer is `Done`, one
    /// message is sent to the master of the name.
    Ask {
        /// Who asks: a node from 1 to n, and a part from 0 to 8.
        owner: Owner,
        /// The resource.
        name: LockName,
        /// The mode that it wants.
        mode: Mode,
        /// Each of the 16 bytes of the value block, 0 to 255. They are written where the owner lowers its lock from PW or
        /// EX, or keeps that mode.
        fill: u8,
    },
    /// An owner gives up the lock that it believes it has. Where the answer is `Done`, one message is sent to the master
    /// of the name.
    Drop {
        /// Whose lock it is: a node from 1 to n, and a part from 0 to 8.
        owner: Owner,
        /// The resource.
        name: LockName,
        /// Each of the 16 bytes of the value block, 0 to 255. They are written where the lock is in PW or EX.
        fill: u8,
    },
    /// The first message that is on its way from a node to a node is delivered.
    Pass {
        /// The node that has sent it, 1 to n.
        from: u8,
        /// The node that gets it, 1 to n.
        to: u8,
    },
    /// A node dies. All messages from it and to it are lost.
    Kill {
        /// The node, 1 to n.
        node: u8,
    },
}

/// What a step answers: of what fits an event, the first in this order. The first five change nothing.
#[derive(Clone, Copy, Debug, PartialEq)]
pub enum Told {
    /// The event names a node that does not live.
    Dead,
    /// An Ask or a Drop, and an earlier ask of the owner on this name is not granted yet.
    Busy,
    /// A Drop, and the owner, which does not wait, believes no lock there.
    NotHeld,
    /// An Ask from PR to CW or from CW to PR, and the owner does not wait. Neither mode goes wherever the other goes.
    BadConvert,
    /// A Pass, and no message is on its way from the one node to the other.
    Nothing,
    /// A Pass that has delivered a grant.
    Granted {
        /// Whose lock it is.
        owner: Owner,
        /// The resource.
        name: LockName,
        /// The mode that it has now.
        mode: Mode,
        /// The value block that the name had at its master when the lock was granted.
        value: [u8; 16],
        /// Whether it was valid then.
        valid: bool,
    },
    /// An Ask or a Drop whose message is sent, a Pass that has delivered an ask, a drop or a claim to a master, or a Kill.
    Done,
}
