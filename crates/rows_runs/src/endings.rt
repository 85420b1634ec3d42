//! Runs whose nodes wait for one another come to their end.

use plain_cat::NoMemory;
use rows_calls::{Exchange, On, Row, Step, Wrong, after, answered, play, volume, zeros};
use std::alloc::Global;
use std::test::Fail;

// Plays of eight nodes, drawn from a number, in 64 lines of 32; none are drawn from 0.
fn plays(alloc: Global, seed: u32, script: &mut Vec<u8>) -> Result<(), NoMemory> {
    if seed == 0 {
        return Ok(());
    }
    let mut x = seed;
    for _line in 0..64u8 {
        script.extend_from_slice(b"SCHED")?;
        for _play in 0..32u8 {
            x = x.wrapping_mul(1_103_515_245).wrapping_add(12_345);
            let node = 1 + (x >> 16) % 8;
            script.extend_from_slice(format!(in alloc; " {node}")?.as_bytes())?;
        }
        script.push(b'\n')?;
    }
    Ok(())
}

// Four commands of a node: it makes a file of its own in the main directory, extends file 12, removes its file, and extends file 12 again.
fn four(alloc: Global, node: u32, script: &mut Vec<u8>) -> Result<(), NoMemory> {
    let lines = format!(in alloc;
        "{node} CREATE R1 MFD F{node}.TXT;0 4 [1,4]\n{node} EXTEND (12,1,0) 1\n{node} DELETE MFD F{node}.TXT;0\n{node} EXTEND (12,1,0) 4\n"
    )?;
    script.extend_from_slice(lines.as_bytes())
}

// A script of eight nodes, each of which gives the four commands so many times.
fn crowded(alloc: Global, seed: u32, times: u32) -> Result<Vec<u8>, NoMemory> {
    let mut script = Vec::from_slice(alloc, b"NODES 8\n")?;
    plays(alloc, seed, &mut script)?;
    for _time in 0..times {
        for node in 1..9u32 {
            four(alloc, node, &mut script)?;
        }
    }
    Ok(script)
}

// File 12 is made.
const MADE: &str = "NODES 1\n1 CREATE R1 MFD A.TXT;0 0 [1,4]\n";

// A run of such a script ends with all its answers. File 12 grows by a cluster 256 times, but where none is free, and at last it has all
// 231: each node extends it once more behind its last removal.
fn crowd(alloc: Global, seed: u32) -> Result<(), Wrong> {
    let image = after(alloc, volume(alloc)?, &["run"], MADE, 0, ("", ""))?;
    let script = crowded(alloc, seed, 16)?;
    let text = str::from_utf8(script.as_slice()).unwrap_or("");
    let ends = ("", "\nend: 512 answered, 0 died, 0 free\n");
    let image = after(alloc, image, &["run"], text, 0, ends)?;
    answered(alloc, image, Exchange::finds("accepted\n"))?;
    Ok(())
}

#[test]
fn eight_nodes_in_one_directory(rt: HostRuntime) -> Result<(), Fail> {
    for seed in 0..21u32 {
        crowd(rt.alloc(), seed)?;
    }
    Ok(())
}

// So many times the same line.
fn repeated(times: u32, line: &str, script: &mut Vec<u8>) -> Result<(), NoMemory> {
    for _time in 0..times {
        script.extend_from_slice(line.as_bytes())?;
    }
    Ok(())
}

// A file with all 1,232 clusters that it may have, in sixteen headers: made and extended fifteen times.
fn sixteen(alloc: Global, node: u32, name: u32, script: &mut Vec<u8>) -> Result<(), NoMemory> {
    let first = format!(in alloc; "{node} CREATE R1 MFD F{name}.TXT;0 77 [1,4]\n")?;
    script.extend_from_slice(first.as_bytes())?;
    let more = format!(in alloc; "{node} EXTEND R1 77\n")?;
    repeated(15, more.as_str(), script)
}

// 32 commands of a node. It makes a file of sixteen headers, writes and reads in the last one and reads in the second one; reads in the last
// header of file 12, and cuts a header off that and adds one; and cuts its own file, extends it, and removes one of that name. Nodes 1
// and 2 have one name, 3 and 4 another, and so on.
fn round(alloc: Global, node: u32, script: &mut Vec<u8>) -> Result<(), NoMemory> {
    let name = node / 2 + node % 2;
    sixteen(alloc, node, name, script)?;
    let own = format!(in alloc;
        "{node} OPEN 1 R1 PW\n{node} WRITE 1 1232 TAIL\n{node} READ 1 1232\n{node} READ 1 78\n{node} CLOSE 1\n"
    )?;
    script.extend_from_slice(own.as_bytes())?;
    let shared = format!(in alloc;
        "{node} OPEN 2 (12,1,0) CR\n{node} READ 2 1232\n{node} EXTEND (12,1,0) 1\n{node} TRUNC (12,1,0) 1155\n{node} EXTEND (12,1,0) 77\n{node} CLOSE 2\n"
    )?;
    script.extend_from_slice(shared.as_bytes())?;
    let last = format!(in alloc;
        "{node} TRUNC R1 1000\n{node} EXTEND R1 77\n{node} STAT R1\n{node} TRUNC R1 0\n{node} DELETE MFD F{name}.TXT;0\n"
    )?;
    script.extend_from_slice(last.as_bytes())
}

// A script of eight nodes with sixteen such rounds each.
fn rounds(alloc: Global, seed: u32) -> Result<Vec<u8>, NoMemory> {
    let mut script = Vec::from_slice(alloc, b"NODES 8\n")?;
    plays(alloc, seed, &mut script)?;
    for _time in 0..16u8 {
        for node in 1..9u32 {
            round(alloc, node, &mut script)?;
        }
    }
    Ok(script)
}

// The script that makes file 12, with room for all in the quota.
fn shared_file(alloc: Global) -> Result<Vec<u8>, NoMemory> {
    let mut script = Vec::from_slice(alloc, b"NODES 1\n1 QUOTASET [1,4] 65536 0\n")?;
    sixteen(alloc, 1, 0, &mut script)?;
    Ok(script)
}

// A run of the rounds ends with all its answers. Each node's last word about file 12 is to add a header where there is room, so it has
// sixteen at the end, and all other files are gone.
fn headers(alloc: Global, seed: u32) -> Result<(), Wrong> {
    let words = &["init", "1", "256", "WIDE"];
    let image = after(alloc, zeros(alloc, 16_384)?, words, "", 0, ("", ""))?;
    let first = shared_file(alloc)?;
    let text = str::from_utf8(first.as_slice()).unwrap_or("");
    let image = after(
        alloc,
        image,
        &["run"],
        text,
        0,
        ("", "\nend: 17 answered, 0 died, 14883 free\n"),
    )?;
    let script = rounds(alloc, seed)?;
    let text = str::from_utf8(script.as_slice()).unwrap_or("");
    let ends = ("", "\nend: 4096 answered, 0 died, 14883 free\n");
    let image = after(alloc, image, &["run"], text, 0, ends)?;
    answered(alloc, image, Exchange::finds("accepted\n"))?;
    Ok(())
}

#[test]
fn eight_nodes_with_files_of_sixteen_headers(rt: HostRuntime) -> Result<(), Fail> {
    headers(rt.alloc(), 1)?;
    Ok(())
}

/// Nodes 1 and 2 look up directory 12 and directory 13 in it. Then both are removed and made anew, number 12 in number 13. With their old
/// names the two nodes ask for the locks in the one order, and with the new ones in the other; node 1 waits for directory 12, in which node
/// 2 makes a file.
const TURNED: &str = "NODES 6\n\
    SCHED 3*200 1*16 2*16 4*200 5*200 6*200\n\
    1 LOOKUP R1 MFD A.DIR;1\n\
    1 LOOKUP R2 R1 B.DIR;1\n\
    1 DELETE R1 B.DIR;1\n\
    1 DELETE R2 D.DIR;1\n\
    1 DELETE (13,2,0) D.DIR;1\n\
    1 DELETE (12,3,0) E.TXT;1\n\
    1 DELETE (13,2,0) D.DIR;1\n\
    2 LOOKUP R1 MFD A.DIR;1\n\
    2 LOOKUP R2 R1 B.DIR;1\n\
    2 DELETE R2 A.DIR;1\n\
    2 DELETE R1 D.DIR;1\n\
    2 CREATE R3 (12,3,0) E.TXT;0 0 [1,4]\n\
    3 MKDIR R1 MFD A [1,4]\n\
    3 MKDIR R2 R1 B [1,4]\n\
    4 DELETE (12,1,0) B.DIR;1\n\
    4 DELETE MFD A.DIR;1\n\
    5 CREATE R1 MFD X.TXT;0 0 [1,4]\n\
    5 MKDIR R2 MFD C [1,4]\n\
    5 DELETE MFD X.TXT;1\n\
    6 MKDIR R3 (13,2,0) D [1,4]\n";

const TURNED_REPORT: &str = "1 N3 MKDIR R1 (4,4,0) A [1,4] = (12,1,0) A.DIR;1\n\
    2 N3 MKDIR R2 (12,1,0) B [1,4] = (13,1,0) B.DIR;1\n\
    3 N1 LOOKUP R1 (4,4,0) A.DIR;1 = (12,1,0) A.DIR;1\n\
    4 N1 LOOKUP R2 (12,1,0) B.DIR;1 = (13,1,0) B.DIR;1\n\
    5 N2 LOOKUP R1 (4,4,0) A.DIR;1 = (12,1,0) A.DIR;1\n\
    6 N2 LOOKUP R2 (12,1,0) B.DIR;1 = (13,1,0) B.DIR;1\n\
    7 N4 DELETE (12,1,0) B.DIR;1 = deleted\n\
    8 N4 DELETE (4,4,0) A.DIR;1 = deleted\n\
    9 N5 CREATE R1 (4,4,0) X.TXT;0 0 [1,4] = (12,2,0) X.TXT;1\n\
    10 N5 MKDIR R2 (4,4,0) C [1,4] = (13,2,0) C.DIR;1\n\
    11 N5 DELETE (4,4,0) X.TXT;1 = deleted\n\
    12 N6 MKDIR R3 (13,2,0) D [1,4] = (12,3,0) D.DIR;1\n\
    13 N1 DELETE (12,1,0) B.DIR;1 = refused NoSuchFile\n\
    14 N2 DELETE (13,1,0) A.DIR;1 = refused NoSuchFile\n\
    15 N1 DELETE (13,1,0) D.DIR;1 = refused NoSuchFile\n\
    16 N2 DELETE (12,1,0) D.DIR;1 = refused NoSuchFile\n\
    17 N2 CREATE R3 (12,3,0) E.TXT;0 0 [1,4] = (14,1,0) E.TXT;1\n\
    18 N1 DELETE (13,2,0) D.DIR;1 = refused DirNotEmpty\n\
    19 N1 DELETE (12,3,0) E.TXT;1 = deleted\n\
    20 N1 DELETE (13,2,0) D.DIR;1 = deleted\n\
    end: 20 answered, 0 died, 230 free\n";

const ROWS: &[Row<'static>] = &[Row {
    on: On::Fresh,
    first: &[Step::Made(TURNED, TURNED_REPORT)],
    each: &[],
}];

#[test]
fn two_directories_change_places(rt: HostRuntime) -> Result<(), Fail> {
    play(rt.alloc(), ROWS)?;
    Ok(())
}
