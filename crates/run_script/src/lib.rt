//! Scripts: what every node does, in which order the first turns come, and which nodes die.
//!
//! [`read_script`] reads a script, or names the first line that is none. The grammar is `specs/Grammar.antt`, over lines of
//! bytes; `specs/Spelling.antt` says what lines spell together, and which line is the first bad one. [`soak`] makes a script of
//! its own: it is drawn from a number. [`read_node_command`] reads one command behind its node. [`ScriptFault`] is why a script
//! is not read.
//!
//! ```text
//! let script = read_script(alloc, text)?;
//! ```
//!
//! Ok comes with the script that the lines spell (`spelt`), `BadLine` with the first bad line (`bad`), `TooMany` if there are too
//! many commands or plays (`over`), each exactly then, unless memory runs out. No text says two of these
//! (`a_text_says_one_thing`), and the text of a command reads back (`command_texts_read_back`).
//!
//! `run_engine`, `log_check` and `dlm_run` read scripts by it.
#![tactic(auto)]

mod commands;
mod deaths;
mod fault;
mod items;
mod kinds;
mod laws;
mod lines;
mod numbers;
mod operands;
mod parts;
mod reading;
mod runs;
mod soaks;
mod states;

pub use commands::read_node_command;
pub use fault::ScriptFault;
pub use laws::{a_text_says_one_thing, command_texts_read_back};
pub use lines::{Split, split_line};
pub use parts::part;
pub use reading::read_script;
pub use soaks::soak;
