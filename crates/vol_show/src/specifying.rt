//! Reading how a file is specified.

ghost use Rattle.std.specs.Prelude.{◌≡◌, IfOk, map};
ghost use Rattle.vol_show.specs.Reading.{Gives};
ghost use Rattle.vol_show.specs.Specifying.{capital, id_of, is_way, dir_of, version_of, named, bracketed, enclosed, spec_in, spec_of};

use crate::parts::{are_words, count_parts, read_number};
use crate::spec::{Dir, Named, Spec, SpecFault};
use base_words::names::is_name;
use plain_cat::{Fid, Name, NoMemory};
use run_script::part;
use std::alloc::Global;

// The main directory.
const MAIN: Fid = Fid { num: 4, seq: 4 };

// A letter as a capital.
fn capital(b: u8) -> u8
    ensures { result ≡ capital b }
{
    if 97 <= b && b <= 122 { b - 32 } else { b }
}

// A text in capitals.
fn capitals(alloc: Global, text: &[u8]) -> Result<Vec<u8>, NoMemory>
    ensures { IfOk result (λ all. all.items ≡ map capital text.now) }
{
    let mut all = Vec::with_capacity(alloc, text.len())?;
    for b in text {
        all.push(capital(*b))?;
    }
    Ok(all)
}

// An identifier without its parentheses.
#[tactic(auto, unfolding(crate::specs::Specifying::id_of))]
fn read_id(text: &[u8]) -> Result<Fid, SpecFault>
    ensures { Gives (id_of text.now) result }
{
    if count_parts(text, b',') != 3 || part(text, b',', 2) != b"0".as_slice() {
        return Err(SpecFault::Bad);
    }
    let num = read_number(part(text, b',', 0), 16_777_215)?;
    let seq = read_number(part(text, b',', 1), 65_535)?;
    Ok(Fid {
        num,
        seq: seq as u16,
    })
}

// Whether a text is a way.
#[tactic(auto, unfolding(crate::specs::Specifying::is_way))]
fn is_way(text: &[u8]) -> bool
    ensures { result ≡ is_way text.now }
{
    count_parts(text, b'.') <= 8 && are_words(text)
}

// What stands between the brackets.
#[tactic(auto, unfolding(crate::specs::Specifying::dir_of))]
fn read_dir(alloc: Global, text: &[u8]) -> Result<Dir, SpecFault>
    ensures { Gives (dir_of text.now) result }
{
    if is_way(text) {
        return Ok(Dir::Way(Name::of(alloc, text)?));
    }
    Ok(Dir::Number(read_id(text)?))
}

// The version behind a name.
#[tactic(auto, unfolding(crate::specs::Specifying::version_of))]
fn read_version(text: &[u8]) -> Result<u16, SpecFault>
    ensures { Gives (version_of text.now) result }
{
    match count_parts(text, b';') {
        1 => Ok(0),
        2 => Ok(read_number(part(text, b';', 1), 32_767)? as u16),
        _ => Err(SpecFault::Bad),
    }
}

// An entry of a directory.
#[tactic(auto, unfolding(crate::specs::Specifying::named))]
fn read_named(alloc: Global, dir: Dir, text: &[u8]) -> Result<Named, SpecFault>
    ensures { Gives (named dir text.now) result }
{
    if !is_name(part(text, b';', 0)) {
        return Err(SpecFault::Bad);
    }
    let ver = read_version(text)?;
    let name = Name::of(alloc, part(text, b';', 0))?;
    Ok(Named { dir, name, ver })
}

// What stands behind a bracket.
#[tactic(auto, unfolding(crate::specs::Specifying::bracketed))]
fn read_bracketed(alloc: Global, rest: &[u8]) -> Result<Named, SpecFault>
    ensures { Gives (bracketed rest.now) result }
{
    if count_parts(rest, b']') != 2 {
        return Err(SpecFault::Bad);
    }
    let dir = read_dir(alloc, part(rest, b']', 0))?;
    Ok(read_named(alloc, dir, part(rest, b']', 1))?)
}

// What stands behind a parenthesis.
#[tactic(auto, unfolding(crate::specs::Specifying::enclosed))]
fn read_enclosed(rest: &[u8]) -> Result<Fid, SpecFault>
    ensures { Gives (enclosed rest.now) result }
{
    if count_parts(rest, b')') != 2 || !part(rest, b')', 1).is_empty() {
        return Err(SpecFault::Bad);
    }
    read_id(part(rest, b')', 0))
}

// The specification that a text of capitals is.
fn read_capitals(alloc: Global, text: &[u8]) -> Result<Spec, SpecFault>
    ensures { Gives (spec_in text.now) result }
{
    match text {
        [] => Err(SpecFault::Bad),
        [b'(', rest @ ..] => Ok(Spec::Id(read_enclosed(rest)?)),
        [b'[', rest @ ..] => Ok(Spec::Entry(read_bracketed(alloc, rest)?)),
        _ => Ok(Spec::Entry(read_named(alloc, Dir::Number(MAIN), text)?)),
    }
}

/// Reads how a file is specified: `[A.B]NAME.TYP;v`, `[n,s,0]NAME.TYP;v` with the identifier of the directory, `NAME.TYP;v` in the main
/// directory, or `(n,s,0)`. A way has one to eight words. Small letters count as capitals. No version is the same as 0.
///
/// Bad comes exactly where the text is none of these, but for want of memory before.
#[tactic(auto, unfolding(crate::specs::Specifying::spec_of))]
pub fn read_spec(alloc: Global, text: &[u8]) -> Result<Spec, SpecFault>
    ensures { Gives (spec_of text.now) result }
{
    let all = capitals(alloc, text)?;
    read_capitals(alloc, all.as_slice())
}
