//! Whole files of a host.
ghost use Rattle.std.specs.Prelude.{◌≡◌, ◌≢◌, ◌<◌, ◌≤◌, ◌^◌, ◌++◌, length, take, true, false, Some, IfOk, IfErr, OnOk, OnErr, MatchResult, [], ◌∷◌};
ghost use Rattle.std.specs.Option.{option_map};
ghost use Rattle.v6_port.specs.Outside.{In, Out, IsOpen, IsThere, OnlyAt, Tells, same};
ghost use Rattle.v6_port.specs.Causes.{Calm, FaultAt};
ghost use Rattle.v6_port.specs.Calls.{is_given, is_expected};
ghost use Rattle.v6_run.specs.Steps.{StopsReading, StopsFile};
ghost use Rattle.v6_run.specs.Fronts.{HoldsFront};

use std::alloc::Global;
use v6_port::{Failed, Host, InPort, OutPort};

/// Why a file could not be read.
#[derive(Clone, Copy)]
pub(crate) enum ReadError {
    /// Its port failed.
    Fault,
    /// There was no memory.
    NoMemory,
}

/// Reads what is left of an open port, to its end or to this many bytes.
fn read_left<H: Host>(
    alloc: Global,
    host: &mut H,
    port: InPort,
    limit: usize,
) -> Result<Vec<u8>, ReadError>
    requires is_open { IsOpen (H.outside host.old) (In port) }
    requires small { limit < 2 ^ 32 }
    ensures only { OnlyAt (same (In port)) (H.outside host.old) (H.outside host.new) }
    ensures bytes { IfOk result (λ all. Tells (H.outside host.old)
        → all.items ≡ take limit ((H.outside host.old).port (In port)).bytes) }
    ensures short { IfOk result (λ all. length all.items ≤ limit) }
    ensures cause { MatchResult result (λ _. Calm (H.outside host.old) (H.outside host.new))
        (λ error. StopsReading (In port) true error (H.outside host.old) (H.outside host.new)) }
{
    let mut all = Vec::new(alloc);
    let mut buffer = [0u8; 4096];
    'file: while all.len() < limit {
        let wanted = (limit - all.len()).min(4096);
        let Ok(count) = host.read(port, &mut buffer[..wanted]) else {
            return Err(ReadError::Fault);
        };
        if count == 0 {
            break;
        }
        if all.extend_from_slice(&buffer[..count]).is_err() {
            return Err(ReadError::NoMemory);
        }
    }
    Ok(all)
}

/// Reads the file of this name, to its end or to this many bytes.
pub(crate) fn read_file<H: Host>(
    alloc: Global,
    host: &mut H,
    port: InPort,
    name: &str,
    limit: usize,
) -> Result<Vec<u8>, ReadError>
    requires { limit < 2 ^ 32 }
    ensures only { OnlyAt (same (In port)) (H.outside host.old) (H.outside host.new) }
    ensures bytes { IfOk result (λ all. Tells (H.outside host.old)
        → option_map (take limit) ((H.outside host.old).fixed.given name.now) ≡ Some all.items) }
    ensures short { IfOk result (λ all. length all.items ≤ limit) }
    ensures cause { MatchResult result (λ _. Calm (H.outside host.old) (H.outside host.new))
        (λ error. StopsReading (In port) (is_given ((H.outside host.old).fixed.given name.now)) error
        (H.outside host.old) (H.outside host.new)) }
{
    if host.open_read(port, name).is_err() {
        return Err(ReadError::Fault);
    }
    read_left(alloc, host, port, limit)
}

/// Writes a byte. It is what `write_text` is for a text of one byte, without its loop.
#[inline(always)]
pub(crate) fn write_byte<H: Host>(host: &mut H, port: OutPort, byte: u8) -> Result<(), Failed>
    requires is_open { IsOpen (H.outside host.old) (Out port) }
    requires there { IsThere port }
    ensures only { OnlyAt (same (Out port)) (H.outside host.old) (H.outside host.new) }
    ensures is_open { IsOpen (H.outside host.new) (Out port) }
    ensures whole { OnOk result (Tells (H.outside host.old)
        → ((H.outside host.new).port (Out port)).bytes ≡ ((H.outside host.old).port (Out port)).bytes ++ byte ∷ []) }
    ensures stays { OnErr result (((H.outside host.new).port (Out port)).bytes ≡ ((H.outside host.old).port (Out port)).bytes) }
    ensures cause { MatchResult result (λ _. Calm (H.outside host.old) (H.outside host.new))
        (λ _. FaultAt (Out port) true (H.outside host.old) (H.outside host.new)) }
{
    host.write(port, &[byte])?;
    Ok(())
}

/// Writes all of a text, or says how many of its bytes were written before a write failed.
pub(crate) fn write_text<H: Host>(host: &mut H, port: OutPort, text: &[u8]) -> Result<(), usize>
    requires is_open { IsOpen (H.outside host.old) (Out port) }
    requires there { IsThere port }
    ensures only { OnlyAt (same (Out port)) (H.outside host.old) (H.outside host.new) }
    ensures is_open { IsOpen (H.outside host.new) (Out port) }
    ensures whole { OnOk result (Tells (H.outside host.old)
        → ((H.outside host.new).port (Out port)).bytes ≡ ((H.outside host.old).port (Out port)).bytes ++ text.now) }
    ensures front { IfErr result (λ count. Tells (H.outside host.old) → ((H.outside host.new).port (Out port)).bytes
        ≡ ((H.outside host.old).port (Out port)).bytes ++ take count text.now) }
    ensures short { IfErr result (λ count. count < length text.now) }
    ensures cause { MatchResult result (λ _. Calm (H.outside host.old) (H.outside host.new))
        (λ _. FaultAt (Out port) true (H.outside host.old) (H.outside host.new)) }
{
    let mut at = 0;
    'text: while at < text.len() {
        match host.write(port, &text[at..]) {
            Ok(count) => at += count,
            Err(Failed) => return Err(at),
        }
    }
    Ok(())
}

/// Writes all of a text.
pub(crate) fn write_all<H: Host>(host: &mut H, port: OutPort, text: &[u8]) -> Result<(), Failed>
    requires is_open { IsOpen (H.outside host.old) (Out port) }
    requires there { IsThere port }
    ensures only { OnlyAt (same (Out port)) (H.outside host.old) (H.outside host.new) }
    ensures is_open { IsOpen (H.outside host.new) (Out port) }
    ensures whole { OnOk result (Tells (H.outside host.old)
        → ((H.outside host.new).port (Out port)).bytes ≡ ((H.outside host.old).port (Out port)).bytes ++ text.now) }
    ensures front { Tells (H.outside host.old)
        → HoldsFront ((H.outside host.old).port (Out port)).bytes text.now ((H.outside host.new).port (Out port)).bytes }
    ensures cause { MatchResult result (λ _. Calm (H.outside host.old) (H.outside host.new))
        (λ _. FaultAt (Out port) true (H.outside host.old) (H.outside host.new)) }
{
    match write_text(host, port, text) {
        Ok(()) => Ok(()),
        Err(_) => Err(Failed),
    }
}

/// Writes a text to a port, as the file of this name.
pub(crate) fn write_file<H: Host>(
    host: &mut H,
    port: OutPort,
    name: &str,
    text: &[u8],
) -> Result<(), Failed>
    requires closed { ((H.outside host.old).port (Out port)).is_open ≡ false }
    requires not_report { port ≢ OutPort.Report }
    requires there { IsThere port }
    ensures only { OnlyAt (same (Out port)) (H.outside host.old) (H.outside host.new) }
    ensures whole { OnOk result (Tells (H.outside host.old)
        → ((H.outside host.new).port (Out port)).bytes ≡ ((H.outside host.old).port (Out port)).bytes ++ text.now) }
    ensures front { Tells (H.outside host.old)
        → HoldsFront ((H.outside host.old).port (Out port)).bytes text.now ((H.outside host.new).port (Out port)).bytes }
    ensures closed { OnOk result (((H.outside host.new).port (Out port)).is_open ≡ false) }
    ensures stopped { OnErr result (StopsFile port (H.outside host.old) (H.outside host.new)) }
    ensures expected { OnOk result (Tells (H.outside host.old)
        → is_expected ((H.outside host.old).fixed.expects port) name.now ≡ true) }
    ensures opened { Tells (H.outside host.old)
        → ((H.outside host.new).port (Out port)).bytes ≢ ((H.outside host.old).port (Out port)).bytes
        → is_expected ((H.outside host.old).fixed.expects port) name.now ≡ true }
    ensures cause { MatchResult result (λ _. Calm (H.outside host.old) (H.outside host.new))
        (λ _. FaultAt (Out port) (is_expected ((H.outside host.old).fixed.expects port) name.now)
        (H.outside host.old) (H.outside host.new)) }
{
    host.open_write(port, name)?;
    write_all(host, port, text)?;
    host.finish(port)
}
