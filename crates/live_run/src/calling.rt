//! The live top call for a program, with the number of its status as an exit code.

ghost use Rattle.std.specs.Prelude.{map, string_bytes};
ghost use Rattle.std.specs.Process.{exit_status};
ghost use Rattle.live_run.specs.Calls.{IsEnd};

use crate::gate::Gate;
use crate::top::vmsclus_live;
use blk_drive::ImageDev;
use fx_text::{TextIn, TextOut};
use run_engine::{Called, blocks_are_counted, exit_code, no_memory, words_of};
use std::alloc::Global;
use std::sync::Wait;
use std::thread::Threads;

/// Does what these words of a command line ask for, as the live top call does, and answers the number of its status, with the image as that
/// call left it: that of `NoMemory`, with the image as it was, where memory runs out before the call.
pub fn exit_call<
    R: Threads + Wait + Sync,
    I: ImageDev + Send,
    T: TextIn,
    O: TextOut,
    G: Gate + Sync,
>(
    rt: &R,
    alloc: Global,
    line: &[String],
    image: I,
    script: &mut T,
    out: &mut O,
    gate: &G,
) -> Called<I>
    ensures { IsEnd (record {
      words = map string_bytes line.now;
      left = T.left script.old;
      size = I.size image;
      told = I.told image;
      written = O.written out.old;
      script_faults = T.faults script.old;
      image_faults = I.faults image;
      image_lost = I.lost image;
      out_faults = O.faults out.old;
    })
        (O.written out.new) (I.told result.image) (T.faults script.new) (I.faults result.image) (I.lost result.image) (O.faults out.new) (exit_status result.code) }
{
    blocks_are_counted(&image);
    match words_of(alloc, line) {
        Ok(words) => {
            let finished = vmsclus_live(rt, alloc, words.as_slice(), image, script, out, gate);
            let code = exit_code(&finished.status);
            Called {
                code,
                image: finished.image,
            }
        }
        Err(_) => {
            let code = no_memory(out);
            Called { code, image }
        }
    }
}
