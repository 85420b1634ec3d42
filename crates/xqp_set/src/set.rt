//! The operation of any command.

use op_access::OpAccess;
use op_create::OpCreate;
use op_data::OpData;
use op_delete::OpDelete;
use op_extend::OpExtend;
use op_law::{Need, NoMemory, Operation, Seen};
use op_lookup::OpLookup;
use op_quota::OpQuota;
use op_rename::OpRename;
use plain_cat::Cmd;
use std::alloc::Global;

/// The operation of a command, whichever it is.
#[derive(Drop)]
pub enum XqpOp {
    /// Of a LOOKUP, LIST or STAT.
    Lookup(OpLookup),

    /// Of a CREATE or MKDIR.
    Create(OpCreate),

    /// Of an EXTEND or TRUNC.
    Extend(OpExtend),

    /// Of a DELETE.
    Delete(OpDelete),

    /// Of a RENAME.
    Rename(OpRename),

    /// Of an OPEN or CLOSE.
    Access(OpAccess),

    /// Of a READ or WRITE.
    Data(OpData),

    /// Of a QUOTASET or QUOTASHOW.
    Quota(OpQuota),
}

impl Operation for XqpOp {
    ghost use Rattle.xqp_set.specs.Built.{IsBuilt, command_of};

    ghost takes = { IsBuilt };

    ghost cmd_is = { command_of };

    fn of(cmd: Cmd) -> Self {
        match cmd {
            Cmd::Lookup { .. } | Cmd::List { .. } | Cmd::Stat { .. } => {
                XqpOp::Lookup(OpLookup::of(cmd))
            }
            Cmd::Create { .. } | Cmd::MkDir { .. } => XqpOp::Create(OpCreate::of(cmd)),
            Cmd::Extend { .. } | Cmd::Trunc { .. } => XqpOp::Extend(OpExtend::of(cmd)),
            Cmd::Delete { .. } => XqpOp::Delete(OpDelete::of(cmd)),
            Cmd::Rename { .. } => XqpOp::Rename(OpRename::of(cmd)),
            Cmd::OpenFile { .. } | Cmd::CloseFile { .. } => XqpOp::Access(OpAccess::of(cmd)),
            Cmd::ReadBlock { .. } | Cmd::WriteBlock { .. } => XqpOp::Data(OpData::of(cmd)),
            Cmd::QuotaSet { .. } | Cmd::QuotaShow { .. } => XqpOp::Quota(OpQuota::of(cmd)),
        }
    }

    fn cmd(&self) -> &Cmd {
        match self {
            XqpOp::Lookup(op) => op.cmd(),
            XqpOp::Create(op) => op.cmd(),
            XqpOp::Extend(op) => op.cmd(),
            XqpOp::Delete(op) => op.cmd(),
            XqpOp::Rename(op) => op.cmd(),
            XqpOp::Access(op) => op.cmd(),
            XqpOp::Data(op) => op.cmd(),
            XqpOp::Quota(op) => op.cmd(),
        }
    }

    fn into_cmd(self) -> Cmd {
        match self {
            XqpOp::Lookup(op) => op.into_cmd(),
            XqpOp::Create(op) => op.into_cmd(),
            XqpOp::Extend(op) => op.into_cmd(),
            XqpOp::Delete(op) => op.into_cmd(),
            XqpOp::Rename(op) => op.into_cmd(),
            XqpOp::Access(op) => op.into_cmd(),
            XqpOp::Data(op) => op.into_cmd(),
            XqpOp::Quota(op) => op.into_cmd(),
        }
    }

    fn next(&self, alloc: Global, seen: &Seen) -> Result<Need, NoMemory> {
        match self {
            XqpOp::Lookup(op) => op.next(alloc, seen),
            XqpOp::Create(op) => op.next(alloc, seen),
            XqpOp::Extend(op) => op.next(alloc, seen),
            XqpOp::Delete(op) => op.next(alloc, seen),
            XqpOp::Rename(op) => op.next(alloc, seen),
            XqpOp::Access(op) => op.next(alloc, seen),
            XqpOp::Data(op) => op.next(alloc, seen),
            XqpOp::Quota(op) => op.next(alloc, seen),
        }
    }
}
