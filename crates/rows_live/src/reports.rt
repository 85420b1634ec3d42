//! Reports of live calls, judged line by line against the volume before and the volume after.

use blk_drive::MemImage;
use fx_text::{MemIn, MemOut, Word};
use live_run::{OpenGate, vmsclus_live};
use log_check::check_log;
use plain_cat::NoMemory;
use rows_calls::{
    Called, Exchange, Stop, Wrong, answered, check_about, expect, failing, image_of, made, text_of,
    volume,
};
use std::alloc::Global;
use std::sync::Wait;
use std::test::Fail;
use std::thread::Threads;

// A source of these bytes without failures.
fn source(alloc: Global, text: &[u8]) -> Result<MemIn, NoMemory> {
    Ok(MemIn::new(Vec::from_slice(alloc, text)?, Vec::new(alloc)))
}

// The words of a line that one space parts.
fn words_of(alloc: Global, line: &str) -> Result<Vec<Word>, NoMemory> {
    let mut words = Vec::new(alloc);
    for word in line.split(' ') {
        words.push(Word::new(alloc, word.as_bytes())?)?;
    }
    Ok(words)
}

// A live call.
fn live<R: Threads + Wait + Sync>(
    rt: &R,
    alloc: Global,
    line: &str,
    image: MemImage,
    script: &str,
) -> Result<Called, NoMemory> {
    let words = words_of(alloc, line)?;
    let mut script = source(alloc, script.as_bytes())?;
    let mut out = MemOut::new(alloc, 1_000_000, Vec::new(alloc))?;
    let finished = vmsclus_live(
        rt,
        alloc,
        words.as_slice(),
        image,
        &mut script,
        &mut out,
        &OpenGate,
    );
    Ok(Called {
        code: finished.status.code(),
        image: finished.image,
        out,
    })
}

// The report has to be a legal history from a volume to the one that is left, and nothing may be found in this.
fn judged_from(alloc: Global, before: MemImage, called: Called) -> Result<(), Wrong> {
    expect(alloc, called.code == 0, text_of(&called))?;
    let mut log = source(alloc, called.out.bytes())?;
    let mut verdict = MemOut::new(alloc, 1000, Vec::new(alloc))?;
    let checking = check_log(alloc, &[], before, called.image, &mut log, &mut verdict);
    let text = str::from_utf8(called.out.bytes()).unwrap_or("no text");
    expect(alloc, checking.status.code() == 0, text)?;
    answered(alloc, checking.after, Exchange::finds("accepted\n"))?;
    Ok(())
}

// The same from the fresh volume.
fn judged(alloc: Global, called: Called) -> Result<(), Wrong> {
    judged_from(alloc, volume(alloc)?, called)
}

const FACTS: &str = "NODES 1\n\
    1 CREATE R1 MFD A.TXT;0 10 [1,4]\n\
    1 QUOTASHOW [1,4]\n\
    1 STAT R1\n";

const FACTS_REPORT: &str = "1 N1 CREATE R1 (4,4,0) A.TXT;0 10 [1,4] = (12,1,0) A.TXT;1\n\
    2 N1 QUOTASHOW [1,4] = usage 13 quota 1088 overdraft 0\n\
    3 N1 STAT (12,1,0) = file [1,4] 12 blocks mark 1 end 1,0\n\
    end: 3 answered, 0 died, 228 free\n";

// One thread has one order, so the report is that of a run.
#[test]
fn one_node_is_as_in_a_run(rt: HostRuntime) -> Result<(), Fail> {
    let alloc = rt.alloc();
    let called = live(&rt, alloc, "live", volume(alloc)?, FACTS)?;
    let text = text_of(&called);
    assert_eq!(&rt; text, FACTS_REPORT);
    judged(alloc, called)?;
    Ok(())
}

const CHANNELS: &str = "NODES 2\n\
    SCHED 1*30 2*100\n\
    1 CREATE R1 MFD B.DAT;0 4 [1,4]\n\
    1 OPEN 1 R1 CW\n\
    1 WRITE 1 1 HELLO\n\
    1 READ 1 1\n\
    1 CLOSE 1\n\
    2 LOOKUP R1 MFD B.DAT;0\n\
    2 OPEN 1 R1 PR\n\
    2 DELETE MFD B.DAT;0\n";

// Two nodes share a file through channels. Their order is that of their threads, and each reply is legal in it.
#[test]
fn channels_answer_in_any_order(rt: HostRuntime) -> Result<(), Fail> {
    let alloc = rt.alloc();
    for _ in 0..10usize {
        let called = live(&rt, alloc, "live", volume(alloc)?, CHANNELS)?;
        judged(alloc, called)?;
    }
    Ok(())
}

// The commands of soak 1, over eight nodes.
const SOAK: &str = "NODES 8\n\
    1 DELETE MFD F1.DAT;0\n\
    2 LOOKUP R4 MFD F2.DAT;0\n\
    3 EXTEND R7 16\n\
    4 EXTEND R5 8\n\
    5 CREATE R8 MFD F1.DAT;0 30 [1,4]\n\
    6 DELETE MFD F15.DAT;0\n\
    7 LIST MFD\n\
    8 CREATE R1 MFD F12.DAT;0 25 [1,4]\n\
    1 CREATE R7 MFD F3.DAT;0 59 [1,4]\n\
    2 CREATE R6 MFD F1.DAT;0 24 [1,4]\n\
    3 EXTEND R5 16\n\
    4 LIST MFD\n\
    5 CREATE R3 MFD F9.DAT;0 24 [1,4]\n\
    6 EXTEND R4 7\n\
    7 DELETE MFD F9.DAT;0\n\
    8 LIST MFD\n";

// Eight threads, fifty times: each report is a legal history to the volume that is left, and this is accepted.
#[test]
fn eight_threads_fifty_times(rt: HostRuntime) -> Result<(), Fail> {
    let alloc = rt.alloc();
    for _ in 0..50usize {
        let called = live(&rt, alloc, "live", volume(alloc)?, SOAK)?;
        judged(alloc, called)?;
    }
    Ok(())
}

const LARGEST: &str = "NODES 1\n1 CREATE R1 MFD A.TXT;0 308 [1,4]\n";

const LARGEST_REPORT: &str =
    "1 N1 CREATE R1 (4,4,0) A.TXT;0 308 [1,4] = (12,1,0) A.TXT;1\nend: 1 answered, 0 died, 154 free\n";

const HEADERS: &str = "NODES 8\n\
    1 EXTEND (12,1,0) 4\n\
    2 EXTEND (12,1,0) 308\n\
    3 TRUNC (12,1,0) 300\n\
    4 EXTEND (12,1,0) 40\n\
    5 TRUNC (12,1,0) 304\n\
    5 EXTEND (12,1,0) 60\n\
    6 STAT (13,0,0)\n\
    6 EXTEND (12,1,0) 8\n\
    7 CREATE R1 MFD B.TXT;0 4 [1,4]\n\
    7 OPEN 1 (12,1,0) CR\n\
    8 DELETE MFD A.TXT;0\n\
    8 CREATE R1 MFD C.TXT;0 0 [1,4]\n";

// Eight threads give headers to one file and take them, in any order, until one deletes it.
#[test]
fn headers_come_and_go_in_any_order(rt: HostRuntime) -> Result<(), Fail> {
    let alloc = rt.alloc();
    let image = made(alloc, volume(alloc)?, LARGEST, LARGEST_REPORT)?;
    for _ in 0..10usize {
        let before = image_of(alloc, image.all(), None)?;
        let begun = image_of(alloc, image.all(), None)?;
        judged_from(alloc, before, live(&rt, alloc, "live", begun, HEADERS)?)?;
    }
    Ok(())
}

const DEATH: &str = "NODES 2\n\
    KILL 1 WRITE 5\n\
    1 CREATE R1 MFD A.TXT;0 10 [1,4]\n\
    2 LOOKUP R1 MFD A.TXT;0\n\
    2 CREATE R1 MFD B.TXT;0 4 [1,4]\n";

// A node dies in place of its fifth write, and the volume is mended once the other is over: the report tells so, and nothing is found.
#[test]
fn a_death_is_mended(rt: HostRuntime) -> Result<(), Fail> {
    let alloc = rt.alloc();
    let called = live(&rt, alloc, "live --rebuild", volume(alloc)?, DEATH)?;
    let end = "4 rebuilt: 1 entered, 0 entries removed, 0 files gone, 16 clusters, 8 numbers\n\
        end: 2 answered, 1 died, 227 free\n";
    check_about(alloc, &called, 0, ("", end), DEATH)?;
    answered(alloc, called.image, Exchange::finds("accepted\n"))?;
    Ok(())
}

// The third write of the image fails, which is its call 1,028: 1,025 read the volume.
#[test]
fn a_write_fails(rt: HostRuntime) -> Result<(), Fail> {
    let alloc = rt.alloc();
    let stop = Stop {
        write: 3,
        lands: false,
    };
    let image = failing(alloc, &volume(alloc)?, stop)?;
    let called = live(&rt, alloc, "live", image, FACTS)?;
    let text = text_of(&called);
    assert_eq!(&rt; (called.code, text), (4, "image fault\n"));
    Ok(())
}
