//! Lists with room, made when a volume is mounted, for the file numbers that deaths leak.

ghost use Rattle.std.specs.Prelude.{◌≡◌, ◌+◌, ◌≤◌, ◌<◌, [], IfOk};

use op_law::NoMemory;
use plain_cat::NumberList;
use std::alloc::Global;
use std::marker::Model;

/// Lists of file numbers for the deaths to come: each is empty, and has room for all file numbers of a volume, which are at most
/// 4,096.
#[derive(Drop)]
pub struct SpareLists {
    lists: Vec<NumberList>,
}

impl Model for SpareLists {
    ghost use Rattle.std.specs.Prelude.{ℕ, length};
    ghost use Rattle.core_state.specs.Spare.{AreSpare};

    ghost Value = { ℕ };

    ghost view = { λ l. length l.lists.items };

    ghost invariant = { λ l. AreSpare l.lists.items };
}

// An empty list with room for all file numbers of a volume.
fn spare_list(alloc: Global) -> Result<NumberList, NoMemory>
    ensures empty { IfOk result (λ l. l.items ≡ []) }
    ensures room { IfOk result (λ l. 4096 ≤ l.room) }
{
    let mut list = NumberList::new(alloc);
    list.make_room(4096)?;
    Ok(list)
}

impl SpareLists {
    /// So many lists. The error says that memory ran out.
    pub fn new(alloc: Global, count: u8) -> Result<SpareLists, NoMemory>
        ensures { IfOk result (λ l. l ≡ count) }
    {
        let mut lists = Vec::new(alloc);
        for _ in 0..count {
            lists.push(spare_list(alloc)?)?;
        }
        Ok(SpareLists { lists })
    }

    /// One of the lists, of which there is one at least. It takes no memory.
    pub fn take(&mut self) -> NumberList
        requires { 0 < self.old }
        ensures empty { result.items ≡ [] }
        ensures room { 4096 ≤ result.room }
        ensures left { self.new + 1 ≡ self.old }
    {
        match self.lists.pop() {
            Some(list) => list,
            None => unreachable!(),
        }
    }
}
