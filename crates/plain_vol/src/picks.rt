//! File numbers that a new file or a new header may take.

ghost use Rattle.std.specs.Prelude.{◌≡◌, ◌≤◌, ◌-◌, length};
ghost use Rattle.std.specs.List.{count_by, range_with_len, sum_by};
ghost use Rattle.plain_rules.specs.Lookups.{is_leaked, is_free_number, extra_in, free_count, has_free_number};
ghost use Rattle.plain_rules.specs.Answers.{IsPick};

use crate::headers::{above_system, extra_in};
use plain_cat::{Cat, Slot};
use plain_rules::slot_at;

fn is_leaked(cat: &Cat, n: u32) -> bool
    ensures { result ≡ is_leaked cat.now n }
{
    match cat
        .leaked_numbers
        .items()
        .get((n as usize).saturating_sub(1))
    {
        Some(leaked) => *leaked,
        None => false,
    }
}

/// Whether a number is free.
pub fn is_free_number(cat: &Cat, n: u32) -> bool
    ensures { result ≡ is_free_number cat.now n }
{
    matches!(slot_at(cat, n), Some(Slot::Free(_))) && !is_leaked(cat, n)
}

// How many numbers are free, those of extension headers among them.
fn free_flags(cat: &Cat) -> usize
    requires { length cat.now.files ≤ 4096 }
    ensures { result ≡ count_by (is_free_number cat.now) (range_with_len 1 (length cat.now.files)) }
{
    let numbers = cat.files.items().len() as u32;
    (1..numbers + 1).filter(|n| is_free_number(cat, *n)).count()
}

// A count less the extension headers of these slots.
fn less_headers(all: usize, slots: &[Slot]) -> usize
    ensures { result ≡ all - sum_by extra_in slots.now }
{
    let mut count = all;
    for slot in slots {
        count = count.saturating_sub(extra_in(slot));
    }
    count
}

/// How many numbers there are to take: the free ones less those of extension headers.
pub fn free_count(cat: &Cat) -> usize
    requires { length cat.now.files ≤ 4096 }
    ensures { result ≡ free_count cat.now }
{
    less_headers(free_flags(cat), above_system(cat.files.items()))
}

// Whether a new header can have a number.
fn has_free_number(cat: &Cat) -> bool
    requires { length cat.now.files ≤ 4096 }
    ensures { result ≡ has_free_number cat.now }
{
    0 < free_count(cat)
}

/// The lowest free number, or none where a new header can have none.
pub fn pick(cat: &Cat) -> Option<u32>
    requires { length cat.now.files ≤ 4096 }
    ensures { IsPick cat.now result }
{
    if !has_free_number(cat) {
        return None;
    }
    for n in 0..cat.files.items().len() as u32 {
        if is_free_number(cat, n + 1) {
            return Some(n + 1);
        }
    }
    None
}
