//! What any command is answered, and the catalogue after it.

ghost use Rattle.std.specs.Prelude.{◌≡◌, true, Option, IfOk};
ghost use Rattle.plain_cat.specs.InForm.{in_form};
ghost use Rattle.plain_rules.specs.Accounts.{Accounted};
ghost use Rattle.plain_rules.specs.Answers.{told, refused, outcome};

use crate::{channels, making, naming, quotas, readers, sizing};
use plain_cat::{Cat, Cmd, NoMemory, Refusal, Reply};
use plain_rules::Outcome;
use std::alloc::Global;

// A reply that leaves the catalogue.
pub(crate) fn told(cat: Cat, reply: Reply) -> Outcome
    ensures { result ≡ told cat reply }
{
    Outcome { reply, after: cat }
}

pub(crate) fn refused(cat: Cat, refusal: Refusal) -> Outcome
    ensures { result ≡ refused cat refusal }
{
    told(cat, Reply::Refused(refusal))
}

/// What the command of a node of 1 to 8 is answered, and the catalogue after it, where `new` is the number that a new file or a
/// new header takes, or none where there is none. The catalogue is handed over and changed where it stands. An error says that
/// memory ran out, and then the catalogue is gone.
#[tactic(auto, unfolding(plain_rules::specs::Answers::outcome, plain_cat::specs::InForm::in_form))]
pub fn outcome_on(
    alloc: Global,
    cat: Cat,
    node: u8,
    cmd: &Cmd,
    new: Option<u32>,
) -> Result<Outcome, NoMemory>
    requires cat { Accounted cat }
    requires cmd { in_form cmd.now ≡ true }
    ensures { IfOk result (λ o. o ≡ outcome cat node cmd.now new) }
{
    match cmd {
        Cmd::Lookup { dir, name, ver, .. } => {
            let reply = readers::lookup(alloc, &cat, *dir, name, *ver)?;
            Ok(told(cat, reply))
        }
        Cmd::List { dir } => {
            let reply = readers::list(alloc, &cat, *dir)?;
            Ok(told(cat, reply))
        }
        Cmd::Stat { file } => {
            let reply = readers::stat(&cat, *file);
            Ok(told(cat, reply))
        }
        Cmd::Create {
            dir,
            name,
            ver,
            blocks,
            owner,
            ..
        } => making::create(alloc, cat, *dir, name, *ver, *blocks, *owner, new),
        Cmd::MkDir {
            dir,
            name,
            owner,
            ..
        } => making::make_dir(alloc, cat, *dir, name, *owner, new),
        Cmd::Extend { file, blocks } => sizing::extend(alloc, cat, *file, *blocks, new),
        Cmd::Trunc { file, blocks } => sizing::trunc(alloc, cat, *file, *blocks),
        Cmd::Delete { dir, name, ver } => naming::delete(alloc, cat, *dir, name, *ver),
        Cmd::Rename {
            dir,
            name,
            ver,
            to,
            to_ver,
        } => naming::rename(alloc, cat, *dir, name, *ver, to, *to_ver),
        Cmd::OpenFile { chan, file, mode } => {
            Ok(channels::open_file(cat, node, *chan, *file, *mode))
        }
        Cmd::CloseFile { chan } => channels::close_file(alloc, cat, node, *chan),
        Cmd::ReadBlock { chan, vbn } => {
            let reply = readers::read(alloc, &cat, node, *chan, *vbn)?;
            Ok(told(cat, reply))
        }
        Cmd::WriteBlock { chan, vbn, text } => { channels::write(cat, node, *chan, *vbn, text) }
        Cmd::QuotaSet { owner, quota, over } => {
            quotas::quota_set(alloc, cat, *owner, *quota, *over)
        }
        Cmd::QuotaShow { owner } => {
            let reply = readers::quota_show(&cat, *owner);
            Ok(told(cat, reply))
        }
    }
}
