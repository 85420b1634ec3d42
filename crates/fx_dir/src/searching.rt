//! A look-up in one block, which makes no list.

ghost use Rattle.std.specs.Prelude.{◌≡◌, ◌+◌, ◌*◌, ◌≤◌, ℕ, List, IsSome, option_map, option_and_then, length};
ghost use Rattle.std.specs.List.{find};
ghost use Rattle.std.specs.Str.{bytes_eq};
ghost use Rattle.base_words.specs.Fields.{field};
ghost use Rattle.fx_dir.specs.Records.{name_in, head_length, entry_in, versions_in, record_entries, block_entries};
ghost use Rattle.fx_dir.specs.Directory.{entries_at};
ghost use Rattle.fx_dir.specs.Wanted.{is_of, is_wanted, wanted_in, version_of};

use crate::Version;
use crate::records::{head_length, is_end, record_length};
use base_words::Block;
use byteorder::{ByteOrder, LittleEndian};

/// Whether a version is the one that is looked for, where 0 means each.
#[tactic(auto, unfolding(crate::specs::Wanted::is_of))]
fn is_of(ver: u16, bytes: &[u8]) -> bool
    requires { 2 ≤ length bytes.now }
    ensures { result ≡ is_of ver (field bytes.now 0 2) }
{
    ver == 0 || LittleEndian::read_u16(bytes) == ver
}

/// What a version says.
#[tactic(auto, unfolding(crate::specs::Records::entry_in))]
fn version_at(bytes: &[u8]) -> Version
    requires { 8 ≤ length bytes.now }
    ensures { (head : List ℕ) → result ≡ version_of (entry_in head bytes.now) }
{
    Version {
        ver: LittleEndian::read_u16(bytes),
        num: LittleEndian::read_u16(&bytes[2..]) as u32 + 65536 * bytes[7] as u32,
        seq: LittleEndian::read_u16(&bytes[4..]),
    }
}

/// The first of `count` versions that is the one looked for.
fn version_in(bytes: &[u8], count: usize, ver: u16) -> Option<Version>
    requires { 8 * count ≤ length bytes.now }
    ensures { (head : List ℕ) → IsSome (versions_in head count bytes.now) → result ≡ option_map version_of (option_and_then (find (λ e. is_of ver e.ver)) (versions_in head count bytes.now)) }
{
    for k in 0..count {
        let version = bytes.split_at(8 * k).1;
        if is_of(ver, version) {
            return Some(version_at(version));
        }
    }
    None
}

/// Whether the record that begins here has this name.
fn has_name(bytes: &[u8], name: &[u8]) -> bool
    requires { head_length bytes.now ≤ length bytes.now }
    ensures { result ≡ bytes_eq (name_in bytes.now) name.now }
{
    let n = bytes[5] as usize;
    &bytes[6..6 + n] == name
}

/// The first entry of this name and version in the record that begins here.
fn record_wanted(bytes: &[u8], name: &[u8], ver: u16) -> Option<Version>
    requires { IsSome (record_entries bytes.now) }
    ensures { result ≡ option_map version_of (option_and_then (wanted_in name.now ver) (record_entries bytes.now)) }
{
    if !has_name(bytes, name) {
        return None;
    }
    let head = head_length(bytes);
    let versions = bytes.split_at(head).1;
    version_in(versions, (record_length(bytes) - head) / 8, ver)
}

/// The entry of this name and version in a block, without its name: the highest of the name where the version is 0. The block is
/// a list of records in order.
pub fn find_in(b: &Block, name: &[u8], ver: u16) -> Option<Version>
    requires { IsSome (block_entries b.now) }
    ensures { result ≡ option_map version_of (wanted_in name.now ver (entries_at b.now)) }
{
    let mut rest: &[u8] = b;
    while !is_end(rest) {
        if let Some(found) = record_wanted(rest, name, ver) {
            return Some(found);
        }
        rest = rest.split_at(record_length(rest)).1;
    }
    None
}
