//! Bytes to a writer.

ghost use Rattle.std.specs.Prelude.{◌≡◌, ◌+◌, ◌-◌, ◌<◌, ◌≤◌, ◌^◌, length, take, IfOk, IfErr, OnOk};
ghost use Rattle.std.specs.Io.KnownBytes.{Appends};

use std::io::Write;
use thiserror::Error;

/// A write failed, or took nothing, after so many bytes.
#[derive(Debug, Drop, Error)]
#[error("wrote {written} bytes")]
pub struct EmitFault {
    /// So many bytes were taken.
    pub written: usize,
}

/// Writes the bytes in order; a fault says how many of them were taken before it.
pub fn emit<W: Write>(bytes: &[u8], out: &mut W) -> Result<(), EmitFault>
    ensures ok { OnOk result (Appends (W.contents out.old) (W.contents out.new) bytes.now) }
    ensures within { IfErr result (λ e. e.written < length bytes.now) }
    ensures front { IfErr result (λ e. Appends (W.contents out.old) (W.contents out.new) (take e.written bytes.now)) }
{
    let mut written = 0;
    while written < bytes.len() {
        let (_, rest) = bytes.split_at(written);
        match out.write(rest) {
            Ok(0) | Err(_) => return Err(EmitFault { written }),
            Ok(count) => written += count,
        }
    }
    Ok(())
}

/// The same behind so many bytes that were written: answers how many these are together, and a fault counts them too.
pub fn emit_behind<W: Write>(before: usize, bytes: &[u8], out: &mut W) -> Result<usize, EmitFault>
    requires { before + length bytes.now < 2 ^ 64 }
    ensures count { IfOk result (λ n. n ≡ before + length bytes.now) }
    ensures ok { IfOk result (λ _. Appends (W.contents out.old) (W.contents out.new) bytes.now) }
    ensures within { IfErr result (λ e. (before ≤ e.written) × (e.written < before + length bytes.now)) }
    ensures front { IfErr result (λ e. Appends (W.contents out.old) (W.contents out.new) (take (e.written - before) bytes.now)) }
{
    match emit(bytes, out) {
        Ok(()) => Ok(before + bytes.len()),
        Err(fault) => Err(EmitFault {
            written: before + fault.written,
        }),
    }
}
