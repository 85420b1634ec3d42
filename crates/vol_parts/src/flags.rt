//! Which numbers have a header slot of a file.

ghost use Rattle.std.specs.Prelude.{◌≡◌, false, length, map, replicate, IfOk};
ghost use Rattle.fx_home.specs.Homes.{IsWithinLimits};
ghost use Rattle.vol_parts.specs.Catalogues.{flagged};
ghost use Rattle.vol_parts.specs.Chains.{slots_from, most_headers};
ghost use Rattle.vol_parts.specs.Volumes.{volume, IsNumber, numbers, headers_of, told, is_in_slots};

use crate::chains::left_behind;
use crate::heads::fields;
use crate::links::{MOST_HEADERS, next_header};
use base_words::Block;
use fx_header::Hdr;
use fx_home::Home;
use plain_cat::{Flags, NoMemory};
use std::alloc::Global;

// Sets the flags of the header slots of a file, whose first header `first` is in the slot `n`: of this one, and of those to which
// the links lead, as far as the file's blocks go; 16 at most.
fn flag_chain(flags: &mut Flags, home: &Home, blocks: &[Block], n: u32, first: &Hdr)
    requires limits { IsWithinLimits home.now }
    requires number { IsNumber (volume home.now blocks.now) n }
    requires all { length flags.old ≡ home.now.files }
    ensures { flags.new ≡ flagged (slots_from (headers_of (volume home.now blocks.now)) most_headers n first.now first.now.blocks) flags.old }
{
    let mut at = n;
    let mut header = *first;
    let mut left = first.blocks;
    for _count in 0..MOST_HEADERS {
        flags.set(at as usize - 1, true);
        left = left_behind(home, blocks, at, left);
        if left == 0 {
            return;
        }
        let Some(next) = next_header(home, blocks, &header) else {
            return;
        };
        at = header.ext;
        header = next;
    }
}

// Sets the flags of the header slots of the file of a number, if it has one.
fn flag_file(flags: &mut Flags, home: &Home, blocks: &[Block], n: u32)
    requires limits { IsWithinLimits home.now }
    requires number { IsNumber (volume home.now blocks.now) n }
    requires all { length flags.old ≡ home.now.files }
    ensures { flags.new ≡ flagged (told (volume home.now blocks.now) n).slots flags.old }
{
    if let Some(first) = fields(home, blocks, n) {
        flag_chain(flags, home, blocks, n, &first);
    }
}

// So many flags that are not set.
fn no_flags(alloc: Global, count: u32) -> Result<Flags, NoMemory>
    ensures { IfOk result (λ flags. flags ≡ replicate count false) }
{
    let mut flags = Flags::new(alloc);
    for _i in 0..count {
        flags.push(false)?;
    }
    Ok(flags)
}

/// Which file numbers have a header slot of a file: that of its first header or of another one in its chain. Number n stands at
/// n - 1. An error says that memory ran out.
pub fn slot_flags(alloc: Global, home: &Home, blocks: &[Block]) -> Result<Flags, NoMemory>
    requires { IsWithinLimits home.now }
    ensures { IfOk result (λ flags. flags ≡ map (is_in_slots (volume home.now blocks.now)) (numbers (volume home.now blocks.now))) }
{
    let mut flags = no_flags(alloc, home.files)?;
    for n in 1..home.files + 1 {
        flag_file(&mut flags, home, blocks, n);
    }
    Ok(flags)
}
