//! Cached blocks: how many blocks nodes read from the drive and how many they find cached, and that none is used once another node has
//! changed it.

use blk_drive::{MemImage, Mirror};
use core_state::World;
use fx_text::MemIn;
use plain_cat::NoMemory;
use rows_calls::{Exchange, Wrong, answered, call, expect, text_of, volume};
use run_engine::{run, script_of};
use std::alloc::{AllocError, Global};
use std::test::Fail;
use xqp_set::XqpOp;

/// How many blocks a node has read, and how many it has found cached.
#[derive(Clone, Copy)]
struct Counts {
    reads: u64,
    hits: u64,
}

// These counts of a node of a world.
fn counts_at(w: &World<MemImage, XqpOp>, node: u8) -> Option<Counts> {
    w.keeps_the_rules();
    if node == 0 || w.script().nodes < node {
        return None;
    }
    Some(Counts {
        reads: w.reads(node),
        hits: w.hits(node),
    })
}

// These counts of a node, once the script that is read has run on the image.
fn counts_of(alloc: Global, image: MemImage, script: &mut MemIn, node: u8) -> Option<Counts> {
    let Ok(spelt) = script_of(alloc, script) else {
        return None;
    };
    let Ok(mirror) = Mirror::load(alloc, image) else {
        return None;
    };
    let Ok(mut world) = World::<MemImage, XqpOp>::mount(alloc, mirror, &spelt) else {
        return None;
    };
    world.keeps_the_rules();
    match run(alloc, &mut world, &spelt.plays) {
        Ok(()) => counts_at(&world, node),
        Err(_) => None,
    }
}

// What a node has read and found cached, once this script has run on an image.
fn counted(alloc: Global, image: MemImage, script: &str, node: u8) -> Result<Counts, NoMemory> {
    let bytes = Vec::from_slice(alloc, script.as_bytes())?;
    let mut text = MemIn::new(bytes, Vec::new(alloc));
    match counts_of(alloc, image, &mut text, node) {
        Some(counts) => Ok(counts),
        None => Err(AllocError),
    }
}

// The first look-up reads the header and the four blocks of the directory. The second finds all five cached. Then node 2 makes a file, and
// changes the directory's blocks and not its header: the third look-up finds the header, and reads the blocks.
const LOOKUPS: &str = "NODES 2\n\
    SCHED 1*16 2*100\n\
    1 LOOKUP R1 MFD INDEXF.SYS;1\n\
    1 LOOKUP R1 MFD INDEXF.SYS;1\n\
    1 LOOKUP R1 MFD INDEXF.SYS;1\n\
    2 CREATE R1 MFD A.TXT;0 4 [1,4]\n";

// The lines of node 1: the facts of file 12, of each other number from 1 to 64, a list of the main directory, and the facts of file 12
// again. The list's four blocks push out the headers of the files 12, 1, 2 and 3, so the node does not keep the lock of file 12.
fn facts_of_all(alloc: Global) -> Result<Vec<u8>, NoMemory> {
    let mut script = Vec::from_slice(alloc, b"NODES 2\nSCHED 1*264 2*100\n1 STAT (12,1,0)\n")?;
    for n in 1..65u32 {
        if n != 12 {
            script.extend_from_slice(format!(in alloc; "1 STAT ({n},1,0)\n")?.as_bytes())?;
        }
    }
    script.extend_from_slice(b"1 LIST MFD\n1 STAT (12,1,0)\n2 EXTEND (12,1,0) 1\n")?;
    Ok(script)
}

const MADE: &str = "NODES 1\n\
    1 CREATE R1 MFD A.TXT;0 10 [1,4]\n\
    1 QUOTASHOW [1,4]\n\
    1 STAT R1\n";

// A run has status 0 and these lines in its report, and behind it nothing is found in the volume.
fn has_lines(alloc: Global, image: MemImage, script: &str, lines: &[&str]) -> Result<(), Wrong> {
    let run = call(alloc, &["run"], image, script)?;
    expect(alloc, run.code == 0, script)?;
    for line in lines {
        let has = text_of(&run).split('\n').any(|one| one == *line);
        expect(alloc, has, line)?;
    }
    answered(alloc, run.image, Exchange::finds("accepted\n"))?;
    Ok(())
}

#[test]
fn a_lock_without_a_block_is_not_kept(rt: HostRuntime) -> Result<(), Fail> {
    let alloc = rt.alloc();
    let image = call(alloc, &["run"], volume(alloc)?, MADE)?.image;
    let script = facts_of_all(alloc)?;
    let text = str::from_utf8(script.as_slice()).unwrap_or("");
    let lines = [
        "66 N2 EXTEND (12,1,0) 1 = 16 blocks",
        "67 N1 STAT (12,1,0) = file [1,4] 16 blocks mark 1 end 1,0",
    ];
    has_lines(alloc, image, text, &lines)?;
    Ok(())
}

// Node 2 looks for a name in a directory, which node 1 then deletes. Eight files take all that node 1 has in stock, so its next directory
// has the old one's number and cluster, with another sequence. Node 2, which has the old blocks cached, finds the new entry.
const COMES_AGAIN: &str = "NODES 2\n\
    SCHED 1*31 2*8 1*900\n\
    1 MKDIR R1 MFD D [1,4]\n\
    1 DELETE MFD D.DIR;1\n\
    1 CREATE R2 MFD A1.TXT;0 0 [1,4]\n\
    1 CREATE R2 MFD A2.TXT;0 0 [1,4]\n\
    1 CREATE R2 MFD A3.TXT;0 0 [1,4]\n\
    1 CREATE R2 MFD A4.TXT;0 0 [1,4]\n\
    1 CREATE R2 MFD A5.TXT;0 0 [1,4]\n\
    1 CREATE R2 MFD A6.TXT;0 0 [1,4]\n\
    1 CREATE R2 MFD A7.TXT;0 0 [1,4]\n\
    1 CREATE R2 MFD A8.TXT;0 64 [1,4]\n\
    1 MKDIR R1 MFD E [1,4]\n\
    1 CREATE R2 R1 X.TXT;0 1 [1,4]\n\
    2 LOOKUP R1 (12,1,0) X.TXT;0\n\
    2 LOOKUP R1 (12,2,0) X.TXT;0\n";

const FOUND_ANEW: &[&str] = &[
    "2 N2 LOOKUP R1 (12,1,0) X.TXT;0 = refused NoSuchFile",
    "3 N1 DELETE (4,4,0) D.DIR;1 = deleted",
    "12 N1 MKDIR R1 (4,4,0) E [1,4] = (12,2,0) E.DIR;1",
    "14 N2 LOOKUP R1 (12,2,0) X.TXT;0 = (21,1,0) X.TXT;1",
];

// Two nodes take turns in making files in one directory. Each finds cached what only it writes, and reads what the other has changed.
const IN_TURNS: &str = "NODES 2\n\
    SCHED 1*20 2*20 1*16 2*16 1*16 2*16\n\
    1 CREATE R1 MFD A1.TXT;0 0 [1,4]\n\
    1 CREATE R1 MFD A2.TXT;0 0 [1,4]\n\
    1 CREATE R1 MFD A3.TXT;0 0 [1,4]\n\
    2 CREATE R1 MFD B1.TXT;0 0 [1,4]\n\
    2 CREATE R1 MFD B2.TXT;0 0 [1,4]\n\
    2 CREATE R1 MFD B3.TXT;0 0 [1,4]\n";

const TURN_BY_TURN: &[&str] = &[
    "2 N2 CREATE R1 (4,4,0) B1.TXT;0 0 [1,4] = (21,1,0) B1.TXT;1",
    "3 N1 CREATE R1 (4,4,0) A2.TXT;0 0 [1,4] = (13,1,0) A2.TXT;1",
];

#[test]
fn what_another_has_changed_is_read_anew(rt: HostRuntime) -> Result<(), Fail> {
    let alloc = rt.alloc();
    for (script, lines) in [(COMES_AGAIN, FOUND_ANEW), (IN_TURNS, TURN_BY_TURN)] {
        has_lines(alloc, volume(alloc)?, script, lines)?;
    }
    Ok(())
}

/// A script, a node, and how many blocks it has read and found cached once the script has run on a fresh volume.
const COUNTS: &[(&str, u8, u64, u64)] = &[
    (LOOKUPS, 1, 9, 6),
    (COMES_AGAIN, 2, 10, 0),
    (IN_TURNS, 1, 30, 2),
    (IN_TURNS, 2, 30, 2),
];

#[test]
fn blocks_are_read_or_found_cached(rt: HostRuntime) -> Result<(), Fail> {
    let alloc = rt.alloc();
    for (script, node, reads, hits) in COUNTS {
        let counts = counted(alloc, volume(alloc)?, script, *node)?;
        assert_eq!(rt;
            (counts.reads, counts.hits),
            (*reads, *hits),
            "node {node} of {script}"
        );
    }
    Ok(())
}
