//! The program `vmsclus` once more, for a stored run of its own: a call that ends with a status that is not 0.
//!
//! All code is in `clus_top`.
//!
//! ```text
//! vmsclus_init volume.img - init 4 64 KVol
//! ```
//!
//! It promises nothing more. The stored run shows that the label `KVol` is refused with its text, `bad label`, and with number 9.
#![tactic(auto)]

use std::process::ExitCode;

fn main(rt: HostRuntime) -> ExitCode {
    clus_top::run(&rt)
}
