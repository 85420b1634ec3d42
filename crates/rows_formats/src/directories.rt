//! Directory blocks with known bytes: reading, order, and the first fault.

ghost use Rattle.std.specs.Prelude.{◌≡◌, IfOk};
ghost use Rattle.fx_dir.specs.Entries.{same, has};
ghost use Rattle.fx_dir.specs.Writing.{IsInForm};

use base_words::{Block, put_bytes};
use fx_dir::{
    DirFault, Move, RawEnt, RawName, insert_moves, pack_moves, packed, read_dir, remove_moves,
};
use std::alloc::Global;
use std::test::Fail;

/// Puts bytes into a block that has room for them, and gives the place behind them.
fn put(b: &mut Block, at: usize, bytes: &[u8]) -> usize {
    if bytes.len() <= 512 && at <= 512 - bytes.len() {
        put_bytes(b, at, bytes);
    }
    at.wrapping_add(bytes.len())
}

/// A block that begins with these bytes and is zero behind them.
fn block(bytes: &[u8]) -> Block {
    let mut b = [0u8; 512];
    put(&mut b, 0, bytes);
    b
}

fn read(alloc: Global, texts: &[&[u8]]) -> Result<Vec<RawEnt>, DirFault> {
    let mut blocks = Vec::new(alloc);
    for text in texts {
        blocks.push(block(text))?;
    }
    read_dir(alloc, blocks.as_slice())
}

/// What an entry is read as.
#[derive(Clone, Copy)]
struct Wanted {
    name: &'static [u8],
    ver: u16,
    num: u32,
    seq: u16,
    limit: u16,
    flags: u8,
}

fn is_wanted(e: &RawEnt, wanted: &Wanted) -> bool {
    e.name.bytes() == wanted.name
        && e.ver == wanted.ver
        && e.num == wanted.num
        && e.seq == wanted.seq
        && e.limit == wanted.limit
        && e.flags == wanted.flags
}

fn are_wanted(ents: &[RawEnt], wanted: &[Wanted]) -> bool {
    if ents.len() != wanted.len() {
        return false;
    }
    for (e, wanted) in ents.iter().zip(wanted) {
        if !is_wanted(e, wanted) {
            return false;
        }
    }
    true
}

/// Whether the blocks of these texts have the wanted entries.
fn reads_as(alloc: Global, texts: &[&[u8]], wanted: &[Wanted]) -> Result<bool, DirFault> {
    let ents = read(alloc, texts)?;
    Ok(are_wanted(ents.as_slice(), wanted))
}

/// The main directory of a volume, whose records were written by another program.
const MAIN: &[u8] = b"\x16\x00\xff\x7f\x00\x0a000000.DIR\x01\x00\x04\x00\x04\x00\x00\x00\
    \x12\x00\xff\x7f\x00\x05A.TXT\x00\x01\x00\x0c\x00\x01\x00\x00\x00\
    \x16\x00\xff\x7f\x00\x0aINDEXF.SYS\x01\x00\x01\x00\x01\x00\x00\x00\xff\xff";

const IN_MAIN: [Wanted; 3] = [
    Wanted {
        name: b"000000.DIR",
        ver: 1,
        num: 4,
        seq: 4,
        limit: 32767,
        flags: 0,
    },
    Wanted {
        name: b"A.TXT",
        ver: 1,
        num: 12,
        seq: 1,
        limit: 32767,
        flags: 0,
    },
    Wanted {
        name: b"INDEXF.SYS",
        ver: 1,
        num: 1,
        seq: 1,
        limit: 32767,
        flags: 0,
    },
];

#[test]
fn the_main_directory_is_read(rt: HostRuntime) -> Result<(), Fail> {
    assert!(rt;
        reads_as(rt.alloc(), &[MAIN, b"\xff\xff"], &IN_MAIN)?,
        "the entries of the main directory"
    );
    Ok(())
}

const NINE_AND_SEVEN: &[u8] =
    b"\x16\x00\x05\x00\x02\x02A.\x09\x00\x01\x00\x01\x00\x00\x02\x07\x00\x02\x00\x01\x00\x00\x00\xff\xff";

const SEVEN_AND_THREE: &[u8] =
    b"\x16\x00\x06\x00\x03\x02A.\x07\x00\x02\x00\x01\x00\x00\x00\x03\x00\x03\x00\x01\x00\x00\x00\xff\xff";

const IN_BOTH: [Wanted; 3] = [
    Wanted {
        name: b"A.",
        ver: 9,
        num: 131073,
        seq: 1,
        limit: 5,
        flags: 2,
    },
    Wanted {
        name: b"A.",
        ver: 7,
        num: 2,
        seq: 1,
        limit: 5,
        flags: 2,
    },
    Wanted {
        name: b"A.",
        ver: 3,
        num: 3,
        seq: 1,
        limit: 6,
        flags: 3,
    },
];

/// Versions 9, 7 and 3 of one name over two blocks, where version 7 stands in both; a number above 65,535, a limit and
/// flags of its own.
#[test]
fn a_name_is_read_across_blocks(rt: HostRuntime) -> Result<(), Fail> {
    assert!(rt;
        reads_as(rt.alloc(), &[NINE_AND_SEVEN, SEVEN_AND_THREE], &IN_BOTH)?,
        "versions 9, 7 and 3 of one name, over two blocks"
    );
    Ok(())
}

/// A.;1 with the file identifier (1,1,0), the same with (2,1,0), B.;1 and C.;1, each by itself in a block.
const A: &[u8] = b"\x0e\x00\xff\x7f\x00\x02A.\x01\x00\x01\x00\x01\x00\x00\x00\xff\xff";

const OTHER: &[u8] = b"\x0e\x00\xff\x7f\x00\x02A.\x01\x00\x02\x00\x01\x00\x00\x00\xff\xff";

const B: &[u8] = b"\x0e\x00\xff\x7f\x00\x02B.\x01\x00\x01\x00\x01\x00\x00\x00\xff\xff";

const C: &[u8] = b"\x0e\x00\xff\x7f\x00\x02C.\x01\x00\x01\x00\x01\x00\x00\x00\xff\xff";

/// Two records of one name with falling versions, and with rising ones; the other A.;1 followed by B.;1; B.;1 followed
/// by A.;1.
const FALLING: &[u8] =
    b"\x0e\x00\xff\x7f\x00\x02A.\x02\x00\x01\x00\x01\x00\x00\x00\x0e\x00\xff\x7f\x00\x02A.\x01\x00\x01\x00\x01\x00\x00\x00\xff\xff";

const RISING: &[u8] =
    b"\x0e\x00\xff\x7f\x00\x02A.\x01\x00\x01\x00\x01\x00\x00\x00\x0e\x00\xff\x7f\x00\x02A.\x02\x00\x01\x00\x01\x00\x00\x00\xff\xff";

const OTHER_B: &[u8] =
    b"\x0e\x00\xff\x7f\x00\x02A.\x01\x00\x02\x00\x01\x00\x00\x00\x0e\x00\xff\x7f\x00\x02B.\x01\x00\x01\x00\x01\x00\x00\x00\xff\xff";

const B_A: &[u8] =
    b"\x0e\x00\xff\x7f\x00\x02B.\x01\x00\x01\x00\x01\x00\x00\x00\x0e\x00\xff\x7f\x00\x02A.\x01\x00\x01\x00\x01\x00\x00\x00\xff\xff";

/// Blocks that are no list of records in order.
const BAD_BLOCKS: [&[u8]; 14] = [
    // no end word; a name without a dot, with small letters, with two dots; a padding byte that is not zero
    b"",
    b"\x0e\x00\xff\x7f\x00\x02A1\x01\x00\x01\x00\x01\x00\x00\x00\xff\xff",
    b"\x0e\x00\xff\x7f\x00\x02a.\x01\x00\x01\x00\x01\x00\x00\x00\xff\xff",
    b"\x10\x00\xff\x7f\x00\x03A..\x00\x01\x00\x01\x00\x01\x00\x00\x00\xff\xff",
    b"\x10\x00\xff\x7f\x00\x03A.T\x01\x01\x00\x01\x00\x01\x00\x00\x00\xff\xff",
    // a name longer than its record; no version, and a part of one
    b"\x0e\x00\xff\x7f\x00\xc8A.\x01\x00\x01\x00\x01\x00\x00\x00\xff\xff",
    b"\x06\x00\xff\x7f\x00\x02A.\xff\xff",
    b"\x0f\x00\xff\x7f\x00\x02A.\x01\x00\x01\x00\x01\x00\x00\x00\x00\xff\xff",
    // version 0, version 32768, another volume
    b"\x0e\x00\xff\x7f\x00\x02A.\x00\x00\x01\x00\x01\x00\x00\x00\xff\xff",
    b"\x0e\x00\xff\x7f\x00\x02A.\x00\x80\x01\x00\x01\x00\x00\x00\xff\xff",
    b"\x0e\x00\xff\x7f\x00\x02A.\x01\x00\x01\x00\x01\x00\x01\x00\xff\xff",
    // equal versions in one record, rising ones in two, names that fall
    b"\x16\x00\xff\x7f\x00\x02A.\x01\x00\x01\x00\x01\x00\x00\x00\x01\x00\x01\x00\x01\x00\x00\x00\xff\xff",
    RISING,
    B_A,
];

#[test]
fn a_bad_block_is_named(rt: HostRuntime) {
    for bad in &BAD_BLOCKS {
        let found = count(rt.alloc(), &[*bad]);
        assert!(rt;
            found == Err(DirFault::BadRecord(1)),
            "block 1, which is no list of records in order, is named"
        );
    }
}

/// Blocks, and how many entries or which fault they have.
#[derive(Clone, Copy)]
struct Row {
    blocks: &'static [&'static [u8]],
    found: Result<usize, DirFault>,
}

const ROWS: [Row; 10] = [
    Row {
        blocks: &[],
        found: Ok(0),
    },
    Row {
        blocks: &[A, A, B, A, B],
        found: Ok(2),
    },
    Row {
        blocks: &[FALLING],
        found: Ok(2),
    },
    // one fault, and of two the first: block by block, and in one block order before clash
    Row {
        blocks: &[A, B_A],
        found: Err(DirFault::BadRecord(2)),
    },
    Row {
        blocks: &[B, A],
        found: Err(DirFault::BadOrder),
    },
    Row {
        blocks: &[A, OTHER],
        found: Err(DirFault::Clash),
    },
    Row {
        blocks: &[B, A, B_A],
        found: Err(DirFault::BadOrder),
    },
    Row {
        blocks: &[A, OTHER, B_A],
        found: Err(DirFault::Clash),
    },
    Row {
        blocks: &[A, C, OTHER_B],
        found: Err(DirFault::BadOrder),
    },
    Row {
        blocks: &[A, C, OTHER, B],
        found: Err(DirFault::Clash),
    },
];

fn count(alloc: Global, texts: &[&[u8]]) -> Result<usize, DirFault> {
    let ents = read(alloc, texts)?;
    Ok(ents.len())
}

#[test]
fn the_first_fault_is_named(rt: HostRuntime) {
    for row in &ROWS {
        let found = count(rt.alloc(), row.blocks);
        assert!(rt;
            found == row.found,
            "the count of entries, or the first fault"
        );
    }
}

/// A name that fills its record to 94 bytes, of which a block has room for five.
const LONG: &[u8] =
    b"01XXXXXXXXXXXXXXXXXXXXXXXXXXXXXXXXXXXXX.YYYYYYYYYYYYYYYYYYYYYYYYYYYYYYYYYYYYYYY\x00";

/// Puts the record of LONG with the number `k` in its first two digits, which is file 12 + `k`.
fn put_long(b: &mut Block, at: usize, k: u8) -> usize {
    let at = put(b, at, b"\x5c\x00\xff\x7f\x00\x4f");
    let at = put(b, at, &[(k / 10).wrapping_add(b'0'), k % 10 + b'0']);
    let at = put(b, at, LONG.split_at(2).1);
    let at = put(b, at, b"\x01\x00");
    let at = put(b, at, &[k.wrapping_add(12)]);
    put(b, at, b"\x00\x01\x00\x00\x00")
}

/// The block of the entries LONG with the numbers `from` to `to` in their first two digits, which are files 13 and on,
/// and of Z.T, which is file 19, behind them.
fn long_block(from: u8, to: u8, last: bool) -> Block {
    let mut b = [0u8; 512];
    let mut at = 0usize;
    for k in from..to.saturating_add(1) {
        at = put_long(&mut b, at, k);
    }
    if last {
        at = put(
            &mut b,
            at,
            b"\x10\x00\xff\x7f\x00\x03Z.T\x00\x01\x00\x13\x00\x01\x00\x00\x00",
        );
    }
    put(&mut b, at, b"\xff\xff");
    b
}

/// Whether the entries of the blocks have room in so many blocks.
fn has_room(alloc: Global, blocks: &[Block], k: u32) -> Result<bool, Fail> {
    let ents = read_dir(alloc, blocks)?;
    Ok(packed(alloc, ents.as_slice(), k)?.is_some())
}

/// Whether the entries of the blocks, packed into `k` blocks, are these.
fn packs_to(alloc: Global, blocks: &[Block], k: u32, to: &[Block]) -> Result<bool, Fail> {
    let ents = read_dir(alloc, blocks)?;
    Ok(match packed(alloc, ents.as_slice(), k)? {
        Some(found) => found.as_slice() == to,
        None => false,
    })
}

/// Twenty entries fill four blocks, and one more has no room in them.
#[test]
fn four_blocks_have_room_for_twenty(rt: HostRuntime) -> Result<(), Fail> {
    let alloc = rt.alloc();
    let first = long_block(1, 5, false);
    let second = long_block(6, 10, false);
    let third = long_block(11, 15, false);
    let fourth = long_block(16, 20, false);
    let four = [first, second, third, fourth];
    assert!(rt;
        read_dir(alloc, &four)?.len() == 20,
        "four full blocks have twenty entries"
    );
    assert!(rt;
        packs_to(alloc, &four, 4, &four)?,
        "twenty entries are packed into the same four blocks"
    );
    assert!(rt;
        !has_room(alloc, &four, 3)?,
        "twenty entries have no room in three blocks"
    );
    let five = [first, second, third, fourth, long_block(21, 21, false)];
    assert!(rt;
        !has_room(alloc, &five, 4)?,
        "21 entries have no room in four blocks"
    );
    assert!(rt;
        has_room(alloc, &five, 5)?,
        "21 entries have room in five blocks"
    );
    Ok(())
}

/// Two records of A.;2 and A.;1 become one, with the limit and the flags of the first; what follows is empty.
#[test]
fn records_of_one_name_are_joined(rt: HostRuntime) -> Result<(), Fail> {
    let two =
        b"\x0e\x00\x05\x00\x01\x02A.\x02\x00\x01\x00\x01\x00\x00\x02\x0e\x00\xff\x7f\x00\x02A.\x01\x00\x02\x00\x01\x00\x00\x00\xff\xff";
    let one =
        b"\x16\x00\x05\x00\x01\x02A.\x02\x00\x01\x00\x01\x00\x00\x02\x01\x00\x02\x00\x01\x00\x00\x00\xff\xff";
    assert!(rt;
        packs_to(
            rt.alloc(),
            &[block(two)],
            2,
            &[block(one), block(b"\xff\xff")]
        )?,
        "two records of one name are packed as one"
    );
    Ok(())
}

/// The last entry of a block.
fn last_of(alloc: Global, b: Block) -> Result<RawEnt, Fail>
    ensures { IfOk result IsInForm }
{
    let mut ents = read_dir(alloc, &[b])?;
    match ents.pop() {
        Some(last) => Ok(last),
        None => Err(Fail::from("no entry")),
    }
}

#[tactic(auto, unfolding(fx_dir::specs::Entries::same))]
fn is_same(a: &RawEnt, b: &RawEnt) -> bool
    ensures { result ≡ same a.now b.now }
{
    a.name.bytes() == b.name.bytes() && a.ver == b.ver
}

// Whether an entry of this name and version is there.
fn has(ents: &[RawEnt], e: &RawEnt) -> bool
    ensures { result ≡ has ents.now e.now }
{
    ents.iter().any(|x| is_same(e, x))
}

fn insertion(alloc: Global, old: &[Block; 4], e: &RawEnt) -> Result<Option<Vec<Move>>, Fail>
    requires { IsInForm e.now }
{
    let ents = read_dir(alloc, old)?;
    if has(ents.as_slice(), e) {
        return Err(Fail::from("it is there"));
    }
    Ok(insert_moves(alloc, old, e)?)
}

fn removal(alloc: Global, old: &[Block; 4], name: RawName, ver: u16) -> Result<Vec<Move>, Fail> {
    let ents = read_dir(alloc, old)?;
    let e = RawEnt {
        name,
        ver,
        num: 0,
        seq: 0,
        limit: 0,
        flags: 0,
    };
    if !has(ents.as_slice(), &e) {
        return Err(Fail::from("it is not there"));
    }
    Ok(remove_moves(alloc, old, name.bytes(), ver)?)
}

fn are_moves(moves: &[Move], expected: &[Move]) -> bool {
    if moves.len() != expected.len() {
        return false;
    }
    for (m, expected) in moves.iter().zip(expected) {
        if m.vbn != expected.vbn || m.block != expected.block {
            return false;
        }
    }
    true
}

/// Whether the last entry of `new` is inserted by these moves.
fn inserts(alloc: Global, old: &[Block; 4], new: Block, by: &[Move]) -> Result<bool, Fail> {
    let e = last_of(alloc, new)?;
    Ok(match insertion(alloc, old, &e)? {
        Some(moves) => are_moves(moves.as_slice(), by),
        None => false,
    })
}

/// Whether the last entry of `gone`, which is version 1, is removed by these moves.
fn removes(alloc: Global, old: &[Block; 4], gone: Block, by: &[Move]) -> Result<bool, Fail> {
    let e = last_of(alloc, gone)?;
    let moves = removal(alloc, old, e.name, 1)?;
    Ok(are_moves(moves.as_slice(), by))
}

fn write(vbn: u32, block: Block) -> Move {
    Move { vbn, block }
}

/// An entry that follows the new one goes into the second block before it leaves the first, and the new one comes last.
#[test]
fn an_insertion_enters_its_entry_last(rt: HostRuntime) -> Result<(), Fail> {
    let empty = block(b"\xff\xff");
    let old = [long_block(1, 5, true), empty, empty, empty];
    let expected = [
        write(2, long_block(1, 0, true)),
        write(1, long_block(1, 5, false)),
        write(2, long_block(6, 6, true)),
    ];
    assert!(rt;
        inserts(rt.alloc(), &old, long_block(6, 6, false), &expected)?,
        "the writes of an insertion, which enters its entry last"
    );
    Ok(())
}

/// The entry goes first, then the one that has room in the block before it, which stands in both blocks meanwhile.
#[test]
fn a_removal_packs_after_it_decides(rt: HostRuntime) -> Result<(), Fail> {
    let empty = block(b"\xff\xff");
    let old = [
        long_block(1, 5, false),
        long_block(6, 6, true),
        empty,
        empty,
    ];
    let expected = [
        write(2, long_block(1, 0, true)),
        write(1, long_block(1, 5, true)),
        write(2, empty),
    ];
    assert!(rt;
        removes(rt.alloc(), &old, long_block(6, 6, false), &expected)?,
        "the writes of a removal, which packs after its entry is gone"
    );
    Ok(())
}

/// Whether the entries of a directory are packed by these moves.
fn packs_by(alloc: Global, old: &[Block; 4], by: &[Move]) -> Result<bool, Fail> {
    let _ents = read_dir(alloc, old)?;
    let moves = pack_moves(alloc, old)?;
    Ok(are_moves(moves.as_slice(), by))
}

/// An entry that stands in two blocks comes to stand in one, and a packed directory is left as it is.
#[test]
fn a_packing_leaves_no_entry_in_two_blocks(rt: HostRuntime) -> Result<(), Fail> {
    let empty = block(b"\xff\xff");
    let old = [
        long_block(1, 3, false),
        long_block(3, 5, false),
        long_block(6, 6, true),
        empty,
    ];
    let first = long_block(1, 5, false);
    let second = long_block(6, 6, true);
    let by = [write(1, first), write(2, second), write(3, empty)];
    assert!(rt;
        packs_by(rt.alloc(), &old, &by)?,
        "the writes of a packing, which leave no entry in two blocks"
    );
    assert!(rt;
        packs_by(rt.alloc(), &[first, second, empty, empty], &[])?,
        "a packed directory is not written"
    );
    Ok(())
}

/// Whether the last entry of `new` has no room.
fn is_refused(alloc: Global, old: &[Block; 4], new: Block) -> Result<bool, Fail> {
    let e = last_of(alloc, new)?;
    Ok(insertion(alloc, old, &e)?.is_none())
}

fn have_vbns(moves: &[Move], vbns: &[u32]) -> bool {
    if moves.len() != vbns.len() {
        return false;
    }
    for (m, vbn) in moves.iter().zip(vbns) {
        if m.vbn != *vbn {
            return false;
        }
    }
    true
}

/// Whether the last entry of `new` is inserted by writes of these blocks.
fn inserts_at(alloc: Global, old: &[Block; 4], new: Block, vbns: &[u32]) -> Result<bool, Fail> {
    let e = last_of(alloc, new)?;
    Ok(match insertion(alloc, old, &e)? {
        Some(moves) => have_vbns(moves.as_slice(), vbns),
        None => false,
    })
}

/// A directory that is not packed and has an entry in two blocks is packed first; a full one takes no more.
#[test]
fn a_full_directory_takes_no_more(rt: HostRuntime) -> Result<(), Fail> {
    let old = [
        long_block(1, 5, false),
        long_block(6, 10, false),
        long_block(11, 15, false),
        long_block(16, 20, false),
    ];
    let more = long_block(21, 21, false);
    assert!(rt;
        is_refused(rt.alloc(), &old, more)?,
        "a full directory has no room for one entry more"
    );
    let loose = [
        long_block(1, 3, false),
        long_block(3, 4, false),
        long_block(5, 5, false),
        block(b"\xff\xff"),
    ];
    assert!(rt;
        inserts_at(rt.alloc(), &loose, more, &[1, 2, 3, 2])?,
        "a directory that is not packed is packed before an insertion"
    );
    Ok(())
}

/// Whether the last entry of `new` comes into the first block `one`, and makes `after` of it.
fn changes_to(alloc: Global, one: &[u8], new: &[u8], after: &[u8]) -> Result<bool, Fail> {
    let empty = block(b"\xff\xff");
    let old = [block(one), empty, empty, empty];
    inserts(alloc, &old, block(new), &[write(1, block(after))])
}

/// A new version has the version limit and the flags of the first record of its name, a new name those of a new record.
#[test]
fn a_new_entry_has_the_marks_of_its_name(rt: HostRuntime) -> Result<(), Fail> {
    let one = b"\x0e\x00\x05\x00\x01\x02A.\x01\x00\x01\x00\x01\x00\x00\x00\xff\xff";
    let two =
        b"\x16\x00\x05\x00\x01\x02A.\x02\x00\x02\x00\x01\x00\x00\x00\x01\x00\x01\x00\x01\x00\x00\x00\xff\xff";
    let both =
        b"\x0e\x00\x05\x00\x01\x02A.\x01\x00\x01\x00\x01\x00\x00\x00\x0e\x00\xff\x7f\x00\x02B.\x02\x00\x02\x00\x01\x00\x00\x00\xff\xff";
    let version = b"\x0e\x00\x09\x00\x07\x02A.\x02\x00\x02\x00\x01\x00\x00\x00\xff\xff";
    let name = b"\x0e\x00\x09\x00\x07\x02B.\x02\x00\x02\x00\x01\x00\x00\x00\xff\xff";
    assert!(rt;
        changes_to(rt.alloc(), one, version, two)?,
        "a new version has the limit and the flags of its name"
    );
    assert!(rt;
        changes_to(rt.alloc(), one, name, both)?,
        "a new name has the limit and the flags of a new record"
    );
    Ok(())
}
