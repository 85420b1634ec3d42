//! Messages on their way.

ghost use Rattle.std.specs.Prelude.{◌≡◌, find, filter, not};
ghost use Rattle.dlm_core.specs.Deaths.{is_lost};
ghost use Rattle.dlm_core.specs.States.{is_between, past_first};

use lock_db::{LockName, Mode, Owner};

/// What a message says.
#[derive(Clone, Copy, Debug, PartialEq)]
pub enum Letter {
    /// To the master of a name: the owner asks for a lock, or for another mode of its lock.
    Ask(Mode),
    /// To the master of a name: the owner gives up its lock.
    Drop,
    /// From the master of a name: the owner has a lock in this mode, and this says whether the value block is valid.
    Grant(Mode, bool),
    /// To the new master of the names of a dead node: what the sender had of these names when the node died.
    Claim(u8),
}

/// A message.
#[derive(Clone, Copy, Debug, PartialEq)]
pub struct Message {
    /// The node that has sent it.
    pub from: u8,
    /// The node that gets it.
    pub to: u8,
    /// Whose lock it is about; of a claim part 0 of the node that sends it.
    pub owner: Owner,
    /// The resource; of a claim V, which says nothing.
    pub name: LockName,
    /// What it says.
    pub letter: Letter,
    /// The value block that is written, or that comes with the grant.
    pub value: [u8; 16],
    /// The version of that value block; of a call that does not write 0.
    pub version: u64,
}

fn is_between(m: &Message, from: u8, to: u8) -> bool
    ensures { result ≡ is_between from to m.now }
{
    m.from == from && m.to == to
}

/// Takes the first message that is on its way from a node to a node.
pub(crate) fn take_first(mail: &mut Vec<Message>, from: u8, to: u8) -> Option<Message>
    ensures which { result ≡ find (is_between from to) mail.old.items }
    ensures rest { mail.new.items ≡ past_first (is_between from to) mail.old.items }
{
    for i in 0..mail.len() {
        if is_between(&mail[i], from, to) {
            return Some(mail.remove(i));
        }
    }
    None
}

/// Takes out the messages from a node that is dead, and those to it.
pub(crate) fn lose(mail: &mut Vec<Message>, dead: u8)
    ensures { mail.new.items ≡ filter (λ m. not (is_lost dead m)) mail.old.items }
{
    mail.retain(|m| !(m.from == dead || m.to == dead));
}
