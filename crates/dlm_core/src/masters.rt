//! The home and the master of each name.

ghost use Rattle.std.specs.Prelude.{◌≡◌, ◌≤◌, ◌-◌, None};
ghost use Rattle.dlm_core.specs.States.{rank_of, home, home_at};

use crate::homes::Home;
use lock_db::LockName;

fn rank_of(name: LockName) -> u32
    ensures { result ≡ rank_of name }
{
    match name {
        LockName::S(n) | LockName::A(n) => n,
        LockName::Q => 1,
        LockName::X => 2,
        LockName::V => 3,
    }
}

/// The home of a name: the node that is its first master.
pub(crate) fn home(nodes: u8, name: LockName) -> u8
    requires { 1 ≤ nodes }
    ensures { result ≡ home nodes name }
{
    1 + (rank_of(name) % nodes as u32) as u8
}

/// What stands of the home of a name.
pub(crate) fn home_of(homes: &[Home], nodes: u8, name: LockName) -> Home
    requires { 1 ≤ nodes }
    ensures { result ≡ home_at (home nodes name) homes.now }
{
    let i = home(nodes, name) as usize - 1;
    match homes.get(i) {
        Some(h) => *h,
        None => Home {
            master: 0,
            recovers: None,
        },
    }
}
