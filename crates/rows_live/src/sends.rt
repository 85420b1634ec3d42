//! A world may be handed to a thread. The search for that goes through every field of every node, and has a limit: whoever adds a
//! field sees here whether it still comes to an end.

use blk_drive::ImageDev;
use core_state::World;
use op_law::Operation;

fn needs_send<T: Send>(x: T) -> T {
    x
}

/// A world is `Send` if its image and its operations are.
pub fn sends_a_world<I: ImageDev + Send, O: Operation + Send>(w: World<I, O>) -> World<I, O> {
    needs_send(w)
}
