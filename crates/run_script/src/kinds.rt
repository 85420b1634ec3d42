//! The kinds of commands, by their words.

ghost use Rattle.std.specs.Prelude.{◌≡◌};
ghost use Rattle.run_script.specs.Steps.{open_kind, named_kind, arity};

/// The kinds of commands.
#[derive(Clone, Copy, Debug, PartialEq)]
pub enum Kind {
    Lookup,
    List,
    Stat,
    Create,
    MkDir,
    Extend,
    Trunc,
    Delete,
    Rename,
    OpenFile,
    CloseFile,
    ReadBlock,
    WriteBlock,
    QuotaSet,
    QuotaShow,
}

/// The kind of command that a word names, of those on open files and quotas.
#[tactic(auto, unfolding(crate::specs::Steps::open_kind))]
fn open_kind(word: &[u8]) -> Option<Kind>
    ensures { result ≡ open_kind word.now }
{
    if word == b"OPEN".as_slice() {
        return Some(Kind::OpenFile);
    }
    if word == b"CLOSE".as_slice() {
        return Some(Kind::CloseFile);
    }
    if word == b"READ".as_slice() {
        return Some(Kind::ReadBlock);
    }
    if word == b"WRITE".as_slice() {
        return Some(Kind::WriteBlock);
    }
    if word == b"QUOTASET".as_slice() {
        return Some(Kind::QuotaSet);
    }
    if word == b"QUOTASHOW".as_slice() {
        return Some(Kind::QuotaShow);
    }
    None
}

/// The kind of command that a word names.
#[tactic(auto, unfolding(crate::specs::Steps::named_kind))]
pub fn named_kind(word: &[u8]) -> Option<Kind>
    ensures { result ≡ named_kind word.now }
{
    if word == b"LOOKUP".as_slice() {
        return Some(Kind::Lookup);
    }
    if word == b"LIST".as_slice() {
        return Some(Kind::List);
    }
    if word == b"STAT".as_slice() {
        return Some(Kind::Stat);
    }
    if word == b"CREATE".as_slice() {
        return Some(Kind::Create);
    }
    if word == b"MKDIR".as_slice() {
        return Some(Kind::MkDir);
    }
    if word == b"EXTEND".as_slice() {
        return Some(Kind::Extend);
    }
    if word == b"TRUNC".as_slice() {
        return Some(Kind::Trunc);
    }
    if word == b"DELETE".as_slice() {
        return Some(Kind::Delete);
    }
    if word == b"RENAME".as_slice() {
        return Some(Kind::Rename);
    }
    open_kind(word)
}

/// How many operands a command of this kind has.
pub fn arity(kind: Kind) -> usize
    ensures { result ≡ arity kind }
{
    match kind {
        Kind::List | Kind::Stat | Kind::CloseFile | Kind::QuotaShow => 1,
        Kind::Extend | Kind::Trunc | Kind::Delete | Kind::ReadBlock => 2,
        Kind::Lookup | Kind::Rename | Kind::OpenFile | Kind::WriteBlock | Kind::QuotaSet => 3,
        Kind::MkDir => 4,
        Kind::Create => 5,
    }
}
