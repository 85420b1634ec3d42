//! A text as a whole: read to its end, or written to its end.
ghost use Rattle.std.specs.Prelude.{◌≡◌, ◌<◌, ◌≤◌, length, vec_len, Err, IfOk, IfSome, OnOk, OnErr};
ghost use Rattle.std.specs.Io.KnownBytes.{Appends, IsAtEnd};
ghost use Rattle.base_words.specs.Faults.{HasCause, Rose};
ghost use Rattle.fx_text.specs.Streams.{IsRest, AppendsStart};

use crate::{OutFail, TextFail, TextIn, TextOut};
use std::alloc::{AllocError, Global};

/// Why a text was not read.
#[derive(Clone, Copy, Debug, PartialEq)]
pub enum TextFault {
    /// A read of the source failed.
    ReadFault,
    /// More bytes than the limit were read.
    TooLong,
    /// Memory ran out.
    NoMemory,
}

impl From<AllocError> for TextFault {
    ghost use Rattle.fx_text.specs.declared.whole.TextFault.TheVariants.{NoMemory};

    ghost from_gives = { λ _ fault. fault ≡ NoMemory };

    fn from(_error: AllocError) -> TextFault {
        TextFault::NoMemory
    }
}

impl From<TextFail> for TextFault {
    ghost use Rattle.fx_text.specs.declared.whole.TextFault.TheVariants.{ReadFault};

    ghost from_gives = { λ _ fault. fault ≡ ReadFault };

    fn from(_fail: TextFail) -> TextFault {
        TextFault::ReadFault
    }
}

/// Reads a source to its end, of at most `limit` bytes.
///
/// After a fault, want of memory included, the bytes that were read are gone from the source.
pub fn read_all<T: TextIn>(alloc: Global, src: &mut T, limit: usize) -> Result<Vec<u8>, TextFault>
    // Ok comes at the end of input, with all that was left.
    ensures all { IfOk result (λ text. IfSome (T.left src.old) (λ bytes. text.items ≡ bytes)) }
    ensures end { OnOk result (IsAtEnd (T.left src.new)) }
    ensures within { IfOk result (λ text. vec_len text ≤ limit) }

    // TooLong comes where more than `limit` bytes were left, and with `all` and `within` nowhere else.
    ensures too_long { result ≡ Err TextFault.TooLong → IfSome (T.left src.old) (λ bytes. limit < length bytes) }
    ensures fault { result ≡ Err TextFault.ReadFault → Rose (T.faults src.old) (T.faults src.new) }

    // After each answer.
    ensures rest { IsRest (T.left src.old) (T.left src.new) }
    ensures later { T.faults src.old ≤ T.faults src.new }
{
    let mut all = Vec::new(alloc);
    let mut piece = [0u8; 4096];
    loop {
        let n = src.read(&mut piece)?;
        if n == 0 {
            return Ok(all);
        }
        if limit - all.len() < n {
            return Err(TextFault::TooLong);
        }
        all.extend_from_slice(&piece[..n])?;
    }
}

/// A write of a text failed, and the sink has counted it.
#[derive(Clone, Copy, Debug)]
pub struct OutFault;

/// Writes all the bytes.
///
/// After a fault some first ones of them were written.
pub fn write_all<O: TextOut>(out: &mut O, bytes: &[u8]) -> Result<(), OutFault>
    ensures ok { OnOk result (Appends (O.written out.old) (O.written out.new) bytes.now) }
    ensures err { OnErr result (AppendsStart (O.written out.old) (O.written out.new) bytes.now) }
    ensures cause { HasCause (O.faults out.old) (O.faults out.new) result }
{
    let mut at = 0;
    while at < bytes.len() {
        match out.write(&bytes[at..]) {
            Ok(n) => at += n,
            Err(OutFail) => return Err(OutFault),
        }
    }
    Ok(())
}
