//! The program `vmsclus IMAGE SCRIPT JOB`: a cluster of nodes on one volume.
//!
//! It opens the image and the script, of which `-` is standard input, and hands the words of the job to the top call. All code is
//! in `clus_top`, and what the call promises is said in `clus_top`.
//!
//! ```text
//! vmsclus volume.img making.script run
//! ```
//!
//! The program itself promises nothing more: its stored run shows the report of that script, over real files.
#![tactic(auto)]

use std::process::ExitCode;

fn main(rt: HostRuntime) -> ExitCode {
    clus_top::run(&rt)
}
