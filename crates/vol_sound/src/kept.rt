//! Which header slots stay, and how many are freed.

ghost use Rattle.std.specs.Prelude.{◌≡◌, ◌≤◌, IfOk, length, map, vec_len};
ghost use Rattle.fx_home.specs.Homes.{IsWithinLimits};
ghost use Rattle.vol_parts.specs.Catalogues.{flagged};
ghost use Rattle.vol_parts.specs.Chains.{slots_from, most_headers};
ghost use Rattle.vol_parts.specs.Volumes.{volume, IsNumber, numbers, headers_of, told, head};
ghost use Rattle.vol_sound.specs.Sound.{is_sound, is_kept, is_free_slot, is_freed, freed_slots};
ghost use Rattle.vol_sound.specs.Slots.{sound_slots, system_slots};

use base_words::Block;
use fx_header::{Hdr, Slot};
use fx_home::Home;
use plain_cat::NoMemory;
use std::alloc::Global;
use vol_parts::{MOST_HEADERS, fields, head, left_behind, next_header};

/// Sets the flags of the header slots of a file, whose first header `first` is in the slot `n`: of this one, and of those to which
/// the links lead, as far as the file's blocks go; 16 at most.
fn flag_chain(flags: &mut [bool], home: &Home, blocks: &[Block], n: u32, first: &Hdr)
    requires limits { IsWithinLimits home.now }
    requires number { IsNumber (volume home.now blocks.now) n }
    requires all { length flags.old ≡ home.now.files }
    ensures { flags.new ≡ flagged (slots_from (headers_of (volume home.now blocks.now)) most_headers n first.now first.now.blocks) flags.old }
{
    let mut at = n;
    let mut header = *first;
    let mut left = first.blocks;
    for _count in 0..MOST_HEADERS {
        flags[at as usize - 1] = true;
        left = left_behind(home, blocks, at, left);
        if left == 0 {
            return;
        }
        let Some(next) = next_header(home, blocks, &header) else {
            return;
        };
        at = header.ext;
        header = next;
    }
}

/// Sets the flags of the header slots of the file of a number, if it has one.
fn flag_file(flags: &mut [bool], home: &Home, blocks: &[Block], n: u32)
    requires limits { IsWithinLimits home.now }
    requires number { IsNumber (volume home.now blocks.now) n }
    requires all { length flags.old ≡ home.now.files }
    ensures { flags.new ≡ flagged (told (volume home.now blocks.now) n).slots flags.old }
{
    if let Some(first) = fields(home, blocks, n) {
        flag_chain(flags, home, blocks, n, &first);
    }
}

/// Sets the flags of the header slots of the file of a number, if it is sound.
fn flag_sound(flags: &mut [bool], home: &Home, blocks: &[Block], sound: &[bool], n: u32)
    requires limits { IsWithinLimits home.now }
    requires number { IsNumber (volume home.now blocks.now) n }
    requires all { length flags.old ≡ home.now.files }
    requires sound { let v = volume home.now blocks.now in sound.now ≡ map (is_sound v) (numbers v) }
    ensures { flags.new ≡ flagged (sound_slots (volume home.now blocks.now) n) flags.old }
{
    if sound[n as usize - 1] {
        flag_file(flags, home, blocks, n);
    }
}

/// Sets the flags of the header slots of all sound files, where those of the system files are set and no others.
fn flag_sound_files(flags: &mut [bool], home: &Home, blocks: &[Block], sound: &[bool])
    requires limits { IsWithinLimits home.now }
    requires all { length flags.old ≡ home.now.files }
    requires first { flags.old ≡ system_slots home.now.files }
    requires sound { let v = volume home.now blocks.now in sound.now ≡ map (is_sound v) (numbers v) }
    ensures { let v = volume home.now blocks.now in flags.new ≡ map (is_kept v) (numbers v) }
{
    for n in 1..home.files + 1 {
        flag_sound(flags, home, blocks, sound, n);
    }
}

/// A flag for each of so many numbers, of which those of the system files are set.
fn system_slots(alloc: Global, count: u32) -> Result<Vec<bool>, NoMemory>
    requires { count ≤ 4096 }
    ensures first { IfOk result (λ flags. flags.items ≡ system_slots count) }
    ensures all { IfOk result (λ flags. vec_len flags ≡ count) }
{
    let mut flags = Vec::new(alloc);
    for n in 1..count + 1 {
        flags.push(n <= 11)?;
    }
    Ok(flags)
}

/// Which header slots of a volume stay: those of the system files, and each of a sound file. Number n stands at n - 1. The sound files
/// are those of [`crate::sound_files`]. An error says that memory ran out.
pub fn kept_slots(
    alloc: Global,
    home: &Home,
    blocks: &[Block],
    sound: &[bool],
) -> Result<Vec<bool>, NoMemory>
    requires limits { IsWithinLimits home.now }
    requires sound { let v = volume home.now blocks.now in sound.now ≡ map (is_sound v) (numbers v) }
    ensures { let v = volume home.now blocks.now in IfOk result (λ kept. kept.items ≡ map (is_kept v) (numbers v)) }
{
    let mut kept = system_slots(alloc, home.files)?;
    flag_sound_files(&mut kept, home, blocks, sound);
    Ok(kept)
}

/// Whether the slot of a number is free. One beyond the last block is not.
fn is_free_slot(home: &Home, blocks: &[Block], n: u32) -> bool
    requires limits { IsWithinLimits home.now }
    requires number { IsNumber (volume home.now blocks.now) n }
    ensures { result ≡ is_free_slot (head (volume home.now blocks.now) n) }
{
    match head(home, blocks, n) {
        Ok(Slot::Free(_)) => true,
        Ok(Slot::Used(_)) => false,
        Err(_) => false,
    }
}

/// Whether the slot of a number is freed: it does not stay, and is not free.
fn is_freed(home: &Home, blocks: &[Block], kept: &[bool], n: u32) -> bool
    requires limits { IsWithinLimits home.now }
    requires number { IsNumber (volume home.now blocks.now) n }
    requires kept { let v = volume home.now blocks.now in kept.now ≡ map (is_kept v) (numbers v) }
    ensures { result ≡ is_freed (volume home.now blocks.now) n }
{
    if kept[n as usize - 1] {
        return false;
    }
    !is_free_slot(home, blocks, n)
}

/// How many header slots of a volume are freed: those that do not stay and are not free. Those that stay are the ones of
/// [`kept_slots`].
pub fn freed_slots(home: &Home, blocks: &[Block], kept: &[bool]) -> u32
    requires limits { IsWithinLimits home.now }
    requires kept { let v = volume home.now blocks.now in kept.now ≡ map (is_kept v) (numbers v) }
    ensures { result ≡ freed_slots (volume home.now blocks.now) }
{
    let mut freed = 0;
    for n in 1..home.files + 1 {
        if is_freed(home, blocks, kept, n) {
            freed += 1;
        }
    }
    freed
}
