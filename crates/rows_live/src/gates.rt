//! Threads on small volumes: through the gate one sees that several run, and that they make the events themselves.

use blk_drive::{DevFault, Fail as Failing, ImageDev, MemImage};
use fx_text::{MemIn, MemOut, Word};
use live_run::{Gate, OpenGate, vmsclus_live};
use plain_cat::NoMemory;
use rows_calls::{image_of, volume};
use std::alloc::Global;
use std::process::Abort;
use std::sync::Wait;
use std::sync::atomic::{AtomicU64, Ordering};
use std::test::Fail;
use std::thread;
use std::thread::Threads;

// The fresh volume, whose call of this number fails.
fn failing(alloc: Global, call: u64, lands: bool) -> Result<MemImage, NoMemory> {
    let fail = Failing { call, lands };
    image_of(alloc, volume(alloc)?.all(), Some(fail))
}

// What a call answered.
#[derive(Drop)]
struct Called<I: ImageDev> {
    code: u8,
    out: MemOut,
    image: I,
}

// The words of a line that one space parts.
fn words_of(alloc: Global, line: &str) -> Result<Vec<Word>, NoMemory> {
    let mut words = Vec::new(alloc);
    for word in line.split(' ') {
        words.push(Word::new(alloc, word.as_bytes())?)?;
    }
    Ok(words)
}

fn call<R: Threads + Wait + Sync, I: ImageDev + Send, G: Gate + Sync>(
    rt: &R,
    alloc: Global,
    word: &str,
    image: I,
    script: &str,
    gate: &G,
) -> Result<Called<I>, NoMemory> {
    let words = words_of(alloc, word)?;
    let bytes = Vec::from_slice(alloc, script.as_bytes())?;
    let mut script = MemIn::new(bytes, Vec::new(alloc));
    let mut out = MemOut::new(alloc, 1_000_000, Vec::new(alloc))?;
    let finished = vmsclus_live(
        rt,
        alloc,
        words.as_slice(),
        image,
        &mut script,
        &mut out,
        gate,
    );
    Ok(Called {
        code: finished.status.code(),
        out,
        image: finished.image,
    })
}

// A call has to have this answer.
fn check<I: ImageDev>(rt: &impl Abort, called: &Called<I>, code: u8, text: &str) {
    let written = str::from_utf8(called.out.bytes()).unwrap_or("no text");
    assert_eq!(rt; (called.code, written), (code, text));
}

// How long a gate waits for the other thread at most: so many rounds.
const ROUNDS: u32 = 10_000_000;

// Waits until a word is at least this; whether it came to that.
fn comes_to(word: &AtomicU64, least: u64) -> bool {
    for _ in 0..ROUNDS {
        if word.load(Ordering::SeqCst) >= least {
            return true;
        }
        thread::yield_now();
    }
    false
}

// Nobody passes it for the first time before the other has come to it.
#[derive(Drop)]
struct Meet {
    one: AtomicU64,
    two: AtomicU64,
    missed: AtomicU64,
}

impl Gate for Meet {
    fn pass(&self, node: u8, step: u64) {
        if step != 1 {
            return;
        }
        let (own, other) = if node == 1 {
            (&self.one, &self.two)
        } else {
            (&self.two, &self.one)
        };
        own.store(1, Ordering::SeqCst);
        if !comes_to(other, 1) {
            self.missed.store(1, Ordering::SeqCst);
        }
    }
}

fn two_to_meet() -> Meet {
    Meet {
        one: AtomicU64::new(0),
        two: AtomicU64::new(0),
        missed: AtomicU64::new(0),
    }
}

// Two threads meet at the gate, and both answer. The order of the two answers is that of their threads.
#[test]
fn two_threads_meet(rt: HostRuntime) -> Result<(), Fail> {
    let alloc = rt.alloc();
    let gate = two_to_meet();
    let script = "NODES 2\n1 LOOKUP R1 MFD INDEXF.SYS;1\n2 LOOKUP R1 MFD INDEXF.SYS;1\n";
    let called = call(&rt, alloc, "live", volume(alloc)?, script, &gate)?;
    assert_eq!(&rt; gate.missed.load(Ordering::SeqCst), 0);
    let first = "1 N1 LOOKUP R1 (4,4,0) INDEXF.SYS;1 = (1,1,0) INDEXF.SYS;1\n\
        2 N2 LOOKUP R1 (4,4,0) INDEXF.SYS;1 = (1,1,0) INDEXF.SYS;1\n\
        end: 2 answered, 0 died, 231 free\n";
    let second = "1 N2 LOOKUP R1 (4,4,0) INDEXF.SYS;1 = (1,1,0) INDEXF.SYS;1\n\
        2 N1 LOOKUP R1 (4,4,0) INDEXF.SYS;1 = (1,1,0) INDEXF.SYS;1\n\
        end: 2 answered, 0 died, 231 free\n";
    let text = str::from_utf8(called.out.bytes()).unwrap_or("no text");
    assert!(&rt;
        called.code == 0 && (text == first || text == second),
        "{text}"
    );
    Ok(())
}

// An image that counts its writes in a word that others read.
#[derive(Drop)]
struct Counted<'a, I: ImageDev> {
    image: I,
    writes: &'a AtomicU64,
}

impl<'a, I: ImageDev> ImageDev for Counted<'a, I> {
    ghost told = { λ c. I.told c.image };

    ghost size = { λ c. I.size c.image };

    ghost faults = { λ c. I.faults c.image };

    ghost lost = { λ c. I.lost c.image };

    ghost counted = { λ c. I.counted c.image };

    fn blocks(&mut self) -> Result<u32, DevFault> {
        self.image.blocks()
    }

    fn read_block(&mut self, lbn: u32, b: &mut [u8; 512]) -> Result<(), DevFault> {
        self.image.read_block(lbn, b)
    }

    fn read_onto(
        &mut self,
        lbn: u32,
        count: u32,
        all: &mut Vec<[u8; 512]>,
    ) -> Result<(), DevFault> {
        self.image.read_onto(lbn, count, all)
    }

    fn write_block(&mut self, lbn: u32, b: &[u8; 512]) -> Result<(), DevFault> {
        let written = self.image.write_block(lbn, b);
        if written.is_ok() {
            self.writes.fetch_add(1, Ordering::SeqCst);
        }
        written
    }
}

// Node 1 passes it for the first time only once the image has counted so many writes.
#[derive(Drop)]
struct Behind<'a> {
    writes: &'a AtomicU64,
    least: u64,
    missed: AtomicU64,
}

impl<'a> Gate for Behind<'a> {
    fn pass(&self, node: u8, step: u64) {
        if node == 1 && step == 1 && !comes_to(self.writes, self.least) {
            self.missed.store(1, Ordering::SeqCst);
        }
    }
}

// Node 1 looks up what node 2 has made, since its thread waits for the writes of node 2's: so it is the threads that make the events.
#[test]
fn threads_make_the_events(rt: HostRuntime) -> Result<(), Fail> {
    let alloc = rt.alloc();
    let writes = AtomicU64::new(0);
    let gate = Behind {
        writes: &writes,
        least: 5,
        missed: AtomicU64::new(0),
    };
    let image = Counted {
        image: volume(alloc)?,
        writes: &writes,
    };
    let script = "NODES 2\n1 LOOKUP R1 MFD A.TXT;0\n2 CREATE R1 MFD A.TXT;0 4 [1,4]\n";
    let called = call(&rt, alloc, "live", image, script, &gate)?;
    assert_eq!(&rt; gate.missed.load(Ordering::SeqCst), 0);
    check(
        &rt,
        &called,
        0,
        "1 N2 CREATE R1 (4,4,0) A.TXT;0 4 [1,4] = (12,1,0) A.TXT;1\n\
        2 N1 LOOKUP R1 (4,4,0) A.TXT;0 = (12,1,0) A.TXT;1\n\
        end: 2 answered, 0 died, 230 free\n",
    );
    Ok(())
}

// Nobody has anything to do: the image stays, byte for byte. Other words have no reading.
#[test]
fn nothing_to_do(rt: HostRuntime) -> Result<(), Fail> {
    let alloc = rt.alloc();
    let before = volume(alloc)?;
    let called = call(&rt, alloc, "live", volume(alloc)?, "NODES 8\n", &OpenGate)?;
    check(&rt, &called, 0, "end: 0 answered, 0 died, 231 free\n");
    assert!(&rt;
        called.image.all() == before.all(),
        "the image stays, byte for byte, where there is nothing to do"
    );
    let refused = call(&rt, alloc, "live --mend", before, "NODES 8\n", &OpenGate)?;
    check(&rt, &refused, 1, "bad words\n");
    Ok(())
}

// A write that fails ends the call: the load takes 1,025 calls of the image, and the writes follow.
#[test]
fn a_write_fails(rt: HostRuntime) -> Result<(), Fail> {
    let alloc = rt.alloc();
    let script = "NODES 1\n1 CREATE R1 MFD A.TXT;0 4 [1,4]\n";
    let called = call(
        &rt,
        alloc,
        "live",
        failing(alloc, 1028, false)?,
        script,
        &OpenGate,
    )?;
    check(&rt, &called, 4, "image fault\n");
    let landed = call(
        &rt,
        alloc,
        "live",
        failing(alloc, 1028, true)?,
        script,
        &OpenGate,
    )?;
    check(&rt, &landed, 4, "image fault\n");
    Ok(())
}

// The fifth write charges the owner of the second file. The answers before it are told, of a call that mends then too.
#[test]
fn a_write_fails_behind_answers(rt: HostRuntime) -> Result<(), Fail> {
    let alloc = rt.alloc();
    let script =
        "NODES 1\n1 CREATE R1 MFD A.TXT;0 0 [1,4]\n1 STAT R1\n1 CREATE R1 MFD B.TXT;0 0 [1,4]\n";
    let text = "1 N1 CREATE R1 (4,4,0) A.TXT;0 0 [1,4] = (12,1,0) A.TXT;1\n\
        2 N1 STAT (12,1,0) = file [1,4] 0 blocks mark 1 end 1,0\n\
        image fault\n";
    for words in ["live", "live --rebuild"] {
        let image = failing(alloc, 1030, false)?;
        let called = call(&rt, alloc, words, image, script, &OpenGate)?;
        check(&rt, &called, 4, text);
    }
    Ok(())
}

// A node dies in place of its first turn: a kill counts the node's own turns.
#[test]
fn a_node_dies(rt: HostRuntime) -> Result<(), Fail> {
    let alloc = rt.alloc();
    let script = "NODES 2\nKILL 1 TURN 1\n1 LOOKUP R1 MFD INDEXF.SYS;1\n";
    let called = call(&rt, alloc, "live", volume(alloc)?, script, &OpenGate)?;
    check(
        &rt,
        &called,
        0,
        "1 N1 died at idle, leaked 0 clusters, 0 numbers\n\
        end: 0 answered, 1 died, 231 free\n",
    );
    Ok(())
}

// A death leaves a file that no directory names: with `--rebuild` the last entry is the mending, and the lost file is entered.
#[test]
fn a_death_is_mended(rt: HostRuntime) -> Result<(), Fail> {
    let alloc = rt.alloc();
    let script = "NODES 1\nKILL 1 WRITE 5\n1 CREATE R1 MFD A.TXT;0 10 [1,4]\n";
    let called = call(
        &rt,
        alloc,
        "live --rebuild",
        volume(alloc)?,
        script,
        &OpenGate,
    )?;
    check(
        &rt,
        &called,
        0,
        "1 N1 died at lost, leaked 16 clusters, 8 numbers\n\
        2 rebuilt: 1 entered, 0 entries removed, 0 files gone, 16 clusters, 8 numbers\n\
        end: 0 answered, 1 died, 228 free\n",
    );
    Ok(())
}
