//! A report of ten lines: each of its digits tells, and its last line stands once, at its end.

use crate::texts::{Said, said_of_bytes};
use plain_cat::NoMemory;
use std::alloc::Global;
use std::process::Abort;
use std::test::Fail;

/// Nine entries.
const LINES: [&str; 9] = [
    "1 N1 MKDIR R1 (4,4,0) USERS [1,4] = (12,1,0) USERS.DIR;1\n",
    "2 N1 CREATE R2 (12,1,0) LOGIN.COM;1 4 [1,4] = (13,1,0) LOGIN.COM;1\n",
    "3 N1 CREATE R3 (12,1,0) LOGIN.COM;0 4 [1,4] = (14,1,0) LOGIN.COM;2\n",
    "4 N1 LIST (12,1,0) = 2 entries LOGIN.COM;2 (14,1,0) LOGIN.COM;1 (13,1,0)\n",
    "5 N1 STAT (14,1,0) = file [1,4] 4 blocks mark 1 end 1,0\n",
    "6 N1 DELETE (12,1,0) LOGIN.COM;2 = deleted\n",
    "7 N1 LIST (12,1,0) = 1 entries LOGIN.COM;1 (13,1,0)\n",
    "8 N2 died at nothing, leaked 16 clusters, 0 numbers\n",
    "9 rebuilt: 0 entered, 0 entries removed, 0 files gone, 16 clusters, 0 numbers\n",
];

/// The last line of a report that has the first 0, 1, .. 9 of these entries, without its line feed; and how many clusters are free.
const ENDS: [(&str, u32); 10] = [
    ("end: 0 answered, 0 died, 231 free", 231),
    ("end: 1 answered, 0 died, 230 free", 230),
    ("end: 2 answered, 0 died, 229 free", 229),
    ("end: 3 answered, 0 died, 228 free", 228),
    ("end: 4 answered, 0 died, 228 free", 228),
    ("end: 5 answered, 0 died, 228 free", 228),
    ("end: 6 answered, 0 died, 229 free", 229),
    ("end: 7 answered, 0 died, 229 free", 229),
    ("end: 7 answered, 1 died, 213 free", 213),
    ("end: 7 answered, 1 died, 229 free", 229),
];

// Texts behind each other.
fn joined(alloc: Global, pieces: &[&str]) -> Result<Vec<u8>, NoMemory> {
    let mut text = Vec::new(alloc);
    for piece in pieces {
        text.extend_from_slice(piece.as_bytes())?;
    }
    Ok(text)
}

// What is said of the first k entries with this text behind them.
fn said_behind(alloc: Global, k: usize, last: &str) -> Result<Said, NoMemory> {
    let (first, _left) = LINES.split_at(k.min(9));
    let mut text = joined(alloc, first)?;
    text.extend_from_slice(last.as_bytes())?;
    said_of_bytes(alloc, text.as_slice())
}

// What is said of all entries with this text behind the first k of them.
fn said_between(alloc: Global, k: usize, early: &str) -> Result<Said, NoMemory> {
    let (first, left) = LINES.split_at(k.min(9));
    let mut text = joined(alloc, first)?;
    text.extend_from_slice(early.as_bytes())?;
    text.extend_from_slice(joined(alloc, left)?.as_slice())?;
    said_of_bytes(alloc, text.as_slice())
}

// The last line behind the first k entries: once, missing, without its line feed, twice, and before the entries that are left.
fn check_ends(rt: &impl Abort, alloc: Global, k: usize, end: &str, free: u32) -> Result<(), Fail> {
    let once = format!(in alloc; "{end}\n")?;
    let twice = format!(in alloc; "{end}\n{end}\n")?;
    let wrong = Said::Illegal(k.wrapping_add(1));
    assert_eq!(rt;
        said_behind(alloc, k, once.as_str())?,
        Said::Legal(k, free),
        "once, behind {k}"
    );
    assert_eq!(rt; said_behind(alloc, k, "")?, wrong, "missing, behind {k}");
    assert_eq!(rt;
        said_behind(alloc, k, end)?,
        wrong,
        "no line feed, behind {k}"
    );
    assert_eq!(rt;
        said_behind(alloc, k, twice.as_str())?,
        wrong,
        "twice, behind {k}"
    );
    if k < 9 {
        assert_eq!(rt;
            said_between(alloc, k, once.as_str())?,
            wrong,
            "early, behind {k}"
        );
    }
    Ok(())
}

#[test]
fn the_last_line_stands_once(rt: HostRuntime) -> Result<(), Fail> {
    for (k, (end, free)) in ENDS.iter().enumerate() {
        check_ends(&rt, rt.alloc(), k, end, *free)?;
    }
    Ok(())
}

// A text with the digit at one place one greater, and 0 in place of 9.
fn with_next_digit(alloc: Global, text: &[u8], at: usize) -> Result<Vec<u8>, NoMemory> {
    let mut changed = Vec::new(alloc);
    for (i, b) in text.iter().enumerate() {
        let next = if *b == b'9' { b'0' } else { b.wrapping_add(1) };
        changed.push(if i == at { next } else { *b })?;
    }
    Ok(changed)
}

// Whether the digit at one place is that of a node or a register, which may be any.
fn is_free_choice(text: &[u8], at: usize) -> bool {
    match text.get(at.saturating_sub(1)) {
        Some(b) => *b == b'N' || *b == b'R',
        None => false,
    }
}

#[test]
fn each_digit_tells(rt: HostRuntime) -> Result<(), Fail> {
    let alloc = rt.alloc();
    let mut report = joined(alloc, &LINES)?;
    report.extend_from_slice(b"end: 7 answered, 1 died, 229 free\n")?;
    let text = report.as_slice();
    assert_eq!(rt; said_of_bytes(alloc, text)?, Said::Legal(9, 229));
    for (at, b) in text.iter().enumerate() {
        if b.is_ascii_digit() {
            let changed = with_next_digit(alloc, text, at)?;
            let is_legal = said_of_bytes(alloc, changed.as_slice())? == Said::Legal(9, 229);
            assert_eq!(rt; is_legal, is_free_choice(text, at), "{at}");
        }
    }
    Ok(())
}
