//! Findings as they are printed.

ghost use Rattle.std.specs.Prelude.{◌≡◌, ◌++◌, OnOk, OnErr, codes};
ghost use Rattle.vol_analyze.specs.Texts.{home_fault_text, header_fault_text, scb_fault_text, numbered, wrong_at, owned, entry_in, usage_off, finding_text};

use fx_header::HeaderFault;
use fx_home::{HomeFault, ScbFault};
use plain_cat::{Name, Uic};
use plain_texts::{NoMemory, push_bytes, push_entry, push_number, push_uic};
use std::alloc::Global;
use vol_parts::Finding;

// Appends a fault of the home block by its name.
#[tactic(auto, unfolding(crate::specs::Texts::home_fault_text))]
fn push_home_fault(out: &mut Vec<u8>, fault: HomeFault) -> Result<(), NoMemory>
    ensures { OnOk result (out.new.items ≡ out.old.items ++ home_fault_text fault) }
{
    match fault {
        HomeFault::BadFormat => push_bytes(out, b"BadFormat"),
        HomeFault::BadLevel => push_bytes(out, b"BadLevel"),
        HomeFault::BadSum1 => push_bytes(out, b"BadSum1"),
        HomeFault::BadSum2 => push_bytes(out, b"BadSum2"),
        HomeFault::BadCluster => push_bytes(out, b"BadCluster"),
        HomeFault::BadFiles => push_bytes(out, b"BadFiles"),
        HomeFault::BadLayout => push_bytes(out, b"BadLayout"),
    }
}

// Appends a fault of a header by its name.
#[tactic(auto, unfolding(crate::specs::Texts::header_fault_text))]
fn push_header_fault(out: &mut Vec<u8>, fault: HeaderFault) -> Result<(), NoMemory>
    ensures { OnOk result (out.new.items ≡ out.old.items ++ header_fault_text fault) }
{
    match fault {
        HeaderFault::BadSum => push_bytes(out, b"BadSum"),
        HeaderFault::BadLevel => push_bytes(out, b"BadLevel"),
        HeaderFault::BadOffsets => push_bytes(out, b"BadOffsets"),
        HeaderFault::BadRvn => push_bytes(out, b"BadRvn"),
        HeaderFault::BadExtension => push_bytes(out, b"BadExtension"),
        HeaderFault::BadMap => push_bytes(out, b"BadMap"),
        HeaderFault::BadEnd => push_bytes(out, b"BadEnd"),
    }
}

// Appends a fault of the storage control block by its name.
#[tactic(auto, unfolding(crate::specs::Texts::scb_fault_text))]
fn push_scb_fault(out: &mut Vec<u8>, fault: ScbFault) -> Result<(), NoMemory>
    ensures { OnOk result (out.new.items ≡ out.old.items ++ scb_fault_text fault) }
{
    match fault {
        ScbFault::BadLevel => push_bytes(out, b"BadLevel"),
        ScbFault::BadSum => push_bytes(out, b"BadSum"),
        ScbFault::BadCluster => push_bytes(out, b"BadCluster"),
        ScbFault::BadSize => push_bytes(out, b"BadSize"),
    }
}

// Appends words, and the number of what they speak of.
#[tactic(auto, unfolding(crate::specs::Texts::numbered))]
fn push_numbered(alloc: Global, out: &mut Vec<u8>, words: &[u8], n: u32) -> Result<(), NoMemory>
    ensures { OnOk result (out.new.items ≡ out.old.items ++ numbered words.now n) }
{
    push_bytes(out, words)?;
    push_number(alloc, out, n)
}

// Appends words, a number, and what is wrong there.
#[tactic(auto, unfolding(crate::specs::Texts::wrong_at))]
fn push_wrong(
    alloc: Global,
    out: &mut Vec<u8>,
    words: &[u8],
    n: u32,
    fault: &[u8],
) -> Result<(), NoMemory>
    ensures { OnOk result (out.new.items ≡ out.old.items ++ wrong_at words.now n fault.now) }
{
    push_bytes(out, words)?;
    push_number(alloc, out, n)?;
    push_bytes(out, b": ")?;
    push_bytes(out, fault)
}

// Appends what is wrong with a header.
#[tactic(auto, unfolding(crate::specs::Texts::wrong_at))]
fn push_header(alloc: Global, out: &mut Vec<u8>, n: u32, fault: HeaderFault) -> Result<(), NoMemory>
    ensures { OnOk result (out.new.items ≡ out.old.items ++ wrong_at (codes "header ") n (header_fault_text fault)) }
{
    push_bytes(out, b"header ")?;
    push_number(alloc, out, n)?;
    push_bytes(out, b": ")?;
    push_header_fault(out, fault)
}

// Appends words, and the owner whom they speak of.
#[tactic(auto, unfolding(crate::specs::Texts::owned))]
fn push_owned(alloc: Global, out: &mut Vec<u8>, words: &[u8], owner: Uic) -> Result<(), NoMemory>
    ensures { OnOk result (out.new.items ≡ out.old.items ++ owned words.now owner) }
{
    push_bytes(out, words)?;
    push_uic(alloc, out, owner)
}

// Appends words, an entry, and the number of its directory.
#[tactic(auto, unfolding(crate::specs::Texts::entry_in))]
fn push_entry_in(
    alloc: Global,
    out: &mut Vec<u8>,
    words: &[u8],
    name: &Name,
    ver: u16,
    dir: u32,
) -> Result<(), NoMemory>
    ensures { OnOk result (out.new.items ≡ out.old.items ++ entry_in words.now name.now ver dir) }
{
    push_bytes(out, words)?;
    push_entry(alloc, out, name, ver)?;
    push_bytes(out, b" in ")?;
    push_number(alloc, out, dir)
}

// Appends what a quota row has, and what its owner's files cost.
#[tactic(auto, unfolding(crate::specs::Texts::usage_off))]
fn push_usage(
    alloc: Global,
    out: &mut Vec<u8>,
    owner: Uic,
    has: u32,
    should: u32,
) -> Result<(), NoMemory>
    ensures { OnOk result (out.new.items ≡ out.old.items ++ usage_off owner has should) }
{
    push_bytes(out, b"usage of ")?;
    push_uic(alloc, out, owner)?;
    push_bytes(out, b": has ")?;
    push_number(alloc, out, has)?;
    push_bytes(out, b", should be ")?;
    push_number(alloc, out, should)
}

// Appends words, and a fault of the home block.
fn push_home(out: &mut Vec<u8>, words: &[u8], fault: HomeFault) -> Result<(), NoMemory>
    ensures { OnOk result (out.new.items ≡ out.old.items ++ (words.now ++ home_fault_text fault)) }
{
    push_bytes(out, words)?;
    push_home_fault(out, fault)
}

// Appends words, and a fault of the storage control block.
fn push_scb(out: &mut Vec<u8>, words: &[u8], fault: ScbFault) -> Result<(), NoMemory>
    ensures { OnOk result (out.new.items ≡ out.old.items ++ (words.now ++ scb_fault_text fault)) }
{
    push_bytes(out, words)?;
    push_scb_fault(out, fault)
}

// Appends words and the number of what a bit says is free.
fn push_in_use(alloc: Global, out: &mut Vec<u8>, words: &[u8], n: u32) -> Result<(), NoMemory>
    ensures { OnOk result (out.new.items ≡ out.old.items ++ (numbered words.now n ++ codes " in use")) }
{
    push_numbered(alloc, out, words, n)?;
    push_bytes(out, b" in use")
}

// Appends words, and an entry that names no file.
fn push_names_none(
    alloc: Global,
    out: &mut Vec<u8>,
    words: &[u8],
    name: &Name,
    ver: u16,
    dir: u32,
) -> Result<(), NoMemory>
    ensures { OnOk result (out.new.items ≡ out.old.items ++ (entry_in words.now name.now ver dir ++ codes " names no file")) }
{
    push_entry_in(alloc, out, words, name, ver, dir)?;
    push_bytes(out, b" names no file")
}

/// Appends a finding as it is printed, without a line's end. An error says that memory ran out, and leaves the list as it was.
pub fn push_finding(alloc: Global, out: &mut Vec<u8>, f: &Finding) -> Result<(), NoMemory>
    ensures ok { OnOk result (out.new.items ≡ out.old.items ++ finding_text f.now) }
    ensures err { OnErr result (out.new.items ≡ out.old.items) }
{
    let mut text = Vec::new(alloc);
    add_finding(alloc, &mut text, f)?;
    push_bytes(out, text.as_slice())
}

// Appends a finding, piece by piece.
#[tactic(auto, unfolding(crate::specs::Texts::finding_text))]
fn add_finding(alloc: Global, out: &mut Vec<u8>, f: &Finding) -> Result<(), NoMemory>
    ensures { OnOk result (out.new.items ≡ out.old.items ++ finding_text f.now) }
{
    match f {
        Finding::Home(fault) => push_home(out, b"home: ", *fault),
        Finding::Header(n, fault) => push_header(alloc, out, *n, *fault),
        Finding::WrongNumber(n) => push_wrong(alloc, out, b"header ", *n, b"WrongNumber"),
        Finding::SystemFile(n) => push_numbered(alloc, out, b"system file ", *n),
        Finding::Scb(fault) => push_scb(out, b"storage control block: ", *fault),
        Finding::ChainBroken(n) => push_wrong(alloc, out, b"chain of ", *n, b"Broken"),
        Finding::ChainSplit(n) => push_wrong(alloc, out, b"chain of ", *n, b"BadSplit"),
        Finding::Runs(n) => push_numbered(alloc, out, b"runs of ", *n),
        Finding::Clusters(n) => push_numbered(alloc, out, b"clusters of ", *n),
        Finding::SharedCluster(q) => push_numbered(alloc, out, b"shared cluster ", *q),
        Finding::DirSize(n) => push_wrong(alloc, out, b"directory ", *n, b"BadSize"),
        Finding::DirRecord(n) => push_wrong(alloc, out, b"directory ", *n, b"BadRecord"),
        Finding::DirOrder(n) => push_wrong(alloc, out, b"directory ", *n, b"BadOrder"),
        Finding::DirClash(n) => push_wrong(alloc, out, b"directory ", *n, b"Clash"),
        Finding::QuotaRow(owner) => push_owned(alloc, out, b"quota row ", *owner),
        Finding::NoQuotaRow(n) => push_numbered(alloc, out, b"no quota row for ", *n),
        Finding::FreeCluster(q) => push_in_use(alloc, out, b"free cluster ", *q),
        Finding::FreeNumber(n) => push_in_use(alloc, out, b"free number ", *n),
        Finding::SystemEntry(n) => push_numbered(alloc, out, b"system entry ", *n),
        Finding::MarkedDir(n) => push_numbered(alloc, out, b"marked directory ", *n),
        Finding::DirLoop(n) => push_numbered(alloc, out, b"directory loop at ", *n),
        Finding::NoRoom(n) => push_numbered(alloc, out, b"no room for ", *n),
        Finding::Marked(n) => push_numbered(alloc, out, b"marked ", *n),
        Finding::NamesNone { name, ver, dir } => push_names_none(
            alloc, out, b"entry ", name, *ver, *dir,
        ),
        Finding::Second { name, ver, dir } => push_entry_in(
            alloc,
            out,
            b"second entry ",
            name,
            *ver,
            *dir,
        ),
        Finding::Doubles(n) => push_numbered(alloc, out, b"doubles in ", *n),
        Finding::Lost(n) => push_numbered(alloc, out, b"lost ", *n),
        Finding::Surplus(n) => push_numbered(alloc, out, b"surplus of ", *n),
        Finding::Stray(n) => push_numbered(alloc, out, b"stray header ", *n),
        Finding::LeakedClusters(k) => push_numbered(alloc, out, b"leaked clusters ", *k),
        Finding::LeakedNumbers(k) => push_numbered(alloc, out, b"leaked numbers ", *k),
        Finding::Usage { owner, has, should } => push_usage(alloc, out, *owner, *has, *should),
    }
}
