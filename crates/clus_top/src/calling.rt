//! The top call for a program, with the number of its status as an exit code.

ghost use Rattle.std.specs.Prelude.{map, string_bytes};
ghost use Rattle.std.specs.Process.{exit_status};
ghost use Rattle.clus_top.specs.Calls.{IsEnd};

use crate::vmsclus;
use blk_drive::ImageDev;
use fx_text::{TextIn, TextOut};
use run_engine::{Called, exit_code, no_memory, words_of};
use std::alloc::Global;

/// Does what these words of a command line ask for, as the top call does, and answers the number of its status, with the image as that call
/// left it: that of `NoMemory`, with the image as it was, where memory runs out before the call.
pub fn exit_call<I: ImageDev, T: TextIn, O: TextOut>(
    alloc: Global,
    line: &[String],
    image: I,
    script: &mut T,
    out: &mut O,
) -> Called<I>
    ensures { IsEnd (record {
      words = map string_bytes line.now;
      left = T.left script.old;
      size = I.size image;
      told = I.told image;
      written = O.written out.old;
      script_faults = T.faults script.old;
      image_faults = I.faults image;
      image_lost = I.lost image;
      out_faults = O.faults out.old;
    })
        (O.written out.new) (I.told result.image) (T.faults script.new) (I.faults result.image) (I.lost result.image) (O.faults out.new) (exit_status result.code) }
{
    match words_of(alloc, line) {
        Ok(words) => {
            let finished = vmsclus(alloc, words.as_slice(), image, script, out);
            let code = exit_code(&finished.status);
            Called {
                code,
                image: finished.image,
            }
        }
        Err(_) => {
            let code = no_memory(out);
            Called { code, image }
        }
    }
}
