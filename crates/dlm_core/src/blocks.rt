//! The value blocks that nodes have read or written, and their versions.

ghost use Rattle.std.specs.Prelude.{◌≡◌, OnOk, not, filter, find, unwrap_or};
ghost use Rattle.lock_db.specs.Names.{is_same};
ghost use Rattle.dlm_core.specs.States.{unseen, is_block_of, block_at, noted_block, version_at, noted_version};
ghost use Rattle.dlm_core.specs.Steps.{next_version};

use lock_db::{LockName, NoMemory};

/// The value block that a node last read or wrote on a name.
#[derive(Clone, Copy, Debug, PartialEq)]
pub struct Block {
    /// The node, 1 to n.
    pub node: u8,
    /// The resource.
    pub name: LockName,
    /// The bytes.
    pub value: [u8; 16],
    /// How many writes led to it, as its writers counted them.
    pub version: u64,
}

/// The version of a name's value block at its master.
#[derive(Clone, Copy, Debug, PartialEq)]
pub struct Version {
    /// The resource.
    pub name: LockName,
    /// How many writes led to it, as its writers counted them.
    pub version: u64,
}

/// What an owner has read or written last under its lock.
#[derive(Clone, Copy, Debug, PartialEq)]
pub struct Seen {
    /// The bytes.
    pub value: [u8; 16],
    /// Whether they were valid when they were read; what is written is.
    pub valid: bool,
    /// How many writes led to them, as their writers counted them.
    pub version: u64,
}

/// What an owner has seen that has read and written nothing: zeros.
pub(crate) fn unseen() -> Seen
    ensures { result ≡ unseen }
{
    Seen {
        value: [0; 16],
        valid: false,
        version: 0,
    }
}

fn find_block(blocks: &[Block], node: u8, name: LockName) -> Option<Block>
    ensures { result ≡ find (is_block_of node name) blocks.now }
{
    blocks
        .iter()
        .copied()
        .find(|b| b.node == node && b.name == name)
}

/// The value block that a node last read or wrote on a name.
pub(crate) fn block_at(blocks: &[Block], node: u8, name: LockName) -> Block
    ensures { result ≡ block_at node name blocks.now }
{
    find_block(blocks, node, name).unwrap_or(Block {
        node,
        name,
        value: [0; 16],
        version: 0,
    })
}

fn forget_block(blocks: &mut Vec<Block>, node: u8, name: LockName)
    ensures { blocks.new.items ≡ filter (λ c. not (is_block_of node name c)) blocks.old.items }
{
    blocks.retain(|b| !(b.node == node && b.name == name));
}

/// Notes what a node has read or written.
pub(crate) fn note_block(blocks: &mut Vec<Block>, block: Block) -> Result<(), NoMemory>
    ensures { OnOk result (blocks.new.items ≡ noted_block block blocks.old.items) }
{
    forget_block(blocks, block.node, block.name);
    blocks.push(block)?;
    Ok(())
}

fn find_version(versions: &[Version], name: LockName) -> Option<Version>
    ensures { result ≡ find (λ v. is_same v.name name) versions.now }
{
    versions.iter().copied().find(|v| v.name == name)
}

/// The version of a name's value block at its master.
pub(crate) fn version_at(versions: &[Version], name: LockName) -> u64
    ensures { result ≡ version_at name versions.now }
{
    find_version(versions, name)
        .unwrap_or(Version { name, version: 0 })
        .version
}

fn forget_version(versions: &mut Vec<Version>, name: LockName)
    ensures { versions.new.items ≡ filter (λ v. not (is_same v.name name)) versions.old.items }
{
    versions.retain(|v| v.name != name);
}

/// Notes the version of a name's value block.
pub(crate) fn note_version(
    versions: &mut Vec<Version>,
    name: LockName,
    version: u64,
) -> Result<(), NoMemory>
    ensures { OnOk result (versions.new.items ≡ noted_version name version versions.old.items) }
{
    forget_version(versions, name);
    versions.push(Version { name, version })?;
    Ok(())
}

/// The version of a write, by that of what the writer last read or wrote.
pub(crate) fn next_version(version: u64) -> u64
    ensures { result ≡ next_version version }
{
    if version < u64::MAX {
        version + 1
    } else {
        version
    }
}
