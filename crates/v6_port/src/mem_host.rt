// Files in memory.
ghost use Rattle.std.specs.Prelude.{◌≡◌, ◌+◌, ◌-◌, ◌<◌, ◌^◌, ◌==◌, ◌++◌, ◌∷◌, [], ℕ, min, length, slice_index_or, None, OnOk, OnErr, Some, string_bytes};
ghost use Rattle.std.specs.List.{list_any};
ghost use Rattle.std.specs.Option.{ForSome, option_map};
ghost use Rattle.v6_port.specs.Calls.{is_expected, at_most};
ghost use Rattle.v6_port.specs.Files.{AreEmpty};

use crate::counts::{fault, miss, set_closed, set_open};
use crate::files::{NamedFile, Reading, find, rest_of};
use crate::host::{Failed, Host, InPort, OutPort};
use crate::kept::{INPUTS, Kept, OUTPUTS, PORTS};
use crate::rooms::{Room, at_most};
use std::alloc::{AllocError, Global};

/// A host over files in memory, for trying a command without the system. It tells all its bytes.
///
/// Its calls of [`Host`] take no memory. They fail exactly where the caller said that they are to: at a call
/// named by [`MemHost::fail`], at a name that was not added or is not expected, and where there is no room.
#[derive(Drop)]
pub struct MemHost {
    alloc: Global,
    files: Vec<NamedFile>,
    names: [Option<String>; OUTPUTS],
    readings: [Option<Reading>; INPUTS],
    rooms: [Room; OUTPUTS],
    ports: [Kept; PORTS],
    fails: Vec<u32>,
    calls: u32,
    chunk: Option<u32>,
    ghost positive: { ForSome chunk (λ n. 0 < n) },
    ghost read_from: { (k : ℕ) → ForSome (slice_index_or readings k None) (λ reading. reading.file < length files.items) },
}

impl MemHost {
    ghost use Rattle.v6_port.specs.Outside.{IsNew, IsIdle, IsThere};
    ghost use Rattle.v6_port.specs.Memory.{memory, written, IsEmpty, AddsFile, TakesRoom};

    /// A host with no files, no room, and no call that is to fail.
    pub fn new(alloc: Global) -> Self
        ensures fresh { IsNew (memory result).outside }
        ensures empty { IsEmpty (memory result) }
        ensures idle { IsIdle (memory result).outside }
    {
        MemHost {
            alloc,
            files: Vec::new(alloc),
            names: [
                None, None, None, None, None, None, None, None, None, None, None, None, None,
            ],
            readings: [None; INPUTS],
            rooms: no_rooms(alloc),
            ports: [Kept::NOTHING; PORTS],
            fails: Vec::new(alloc),
            calls: 0,
            chunk: None,
        }
    }

    /// Adds a file, to be opened for reading from now on. It takes the place of an earlier one of its name,
    /// but not for a port that has opened that one.
    ///
    /// # Errors
    ///
    /// There is no memory for a copy of it. The host is as before then.
    pub fn add(&mut self, name: &str, bytes: &[u8]) -> Result<(), AllocError>
        ensures ok { OnOk result (AddsFile name.now bytes.now (memory self.old) (memory self.new)) }
        ensures err { OnErr result (memory self.new ≡ memory self.old) }
        ensures idle { IsIdle (memory self.old).outside → IsIdle (memory self.new).outside }
    {
        let name = String::from_str(self.alloc, name)?;
        let bytes = bytes.to_vec(self.alloc)?;
        self.files.push(NamedFile { name, bytes })?;
        Ok(())
    }

    /// Names a call of [`Host`] that is to fail, by its number from 1. Where as many as 2^32 - 1 have been
    /// made, each later call has that number too.
    ///
    /// # Errors
    ///
    /// There is no memory for one number more. The host is as before then.
    pub fn fail(&mut self, call: u32) -> Result<(), AllocError>
        ensures ok { OnOk result (memory self.new ≡ record (memory self.old) { fails = (memory self.old).fails ++ call ∷ [] }) }
        ensures err { OnErr result (memory self.new ≡ memory self.old) }
        ensures idle { IsIdle (memory self.old).outside → IsIdle (memory self.new).outside }
    {
        self.fails.push(call)?;
        Ok(())
    }

    /// Lets each read give and each write take at most so many bytes, from now on.
    pub fn chunk(&mut self, n: u32)
        requires { 0 < n }
        ensures chunk { memory self.new ≡ record (memory self.old) { chunk = Some n } }
        ensures idle { IsIdle (memory self.old).outside → IsIdle (memory self.new).outside }
    {
        self.chunk = Some(n);
    }

    /// Makes `name` the one that the port expects, and takes room for so many bytes more. What was written
    /// stays. Until then a port has no room, Report too.
    ///
    /// # Errors
    ///
    /// There is no memory for them. The host is as before then.
    pub fn room(&mut self, port: OutPort, name: &str, bytes: usize) -> Result<(), AllocError>
        requires { IsThere port }
        ensures ok { OnOk result (TakesRoom port name.now bytes (memory self.old) (memory self.new)) }
        ensures err { OnErr result (memory self.new ≡ memory self.old) }
        ensures idle { IsIdle (memory self.old).outside → IsIdle (memory self.new).outside }
    {
        let name = String::from_str(self.alloc, name)?;
        self.rooms[port.place()].grow(bytes)?;
        self.names[port.place()] = Some(name);
        Ok(())
    }

    /// All that was written to the port since the host was made.
    pub fn bytes(&self, port: OutPort) -> &[u8]
        requires { IsThere port }
        ensures { result.now ≡ written (memory self.now) port }
    {
        self.rooms[port.place()].bytes.as_slice()
    }
}

// For each port a room that takes nothing yet.
fn no_rooms(alloc: Global) -> [Room; OUTPUTS]
    ensures { AreEmpty result }
{
    [
        Room::new(alloc),
        Room::new(alloc),
        Room::new(alloc),
        Room::new(alloc),
        Room::new(alloc),
        Room::new(alloc),
        Room::new(alloc),
        Room::new(alloc),
        Room::new(alloc),
        Room::new(alloc),
        Room::new(alloc),
        Room::new(alloc),
        Room::new(alloc),
    ]
}

// Counts a call, and says whether it is one of those that are to fail.
fn is_next_due(calls: &mut u32, fails: &[u32]) -> bool
    ensures due { result ≡ list_any (λ n. n == calls.new) fails.now }
    ensures calls { calls.new ≡ min (calls.old + 1) (2 ^ 32 - 1) }
{
    *calls = calls.saturating_add(1);
    fails.contains(calls)
}

// Whether this is the name that a port expects.
fn is_name(expected: &Option<String>, name: &str) -> bool
    ensures { result ≡ is_expected (option_map string_bytes expected.now) name.now }
{
    match expected {
        Some(expected) => expected.as_str() == name,
        None => false,
    }
}

impl Host for MemHost {
    ghost use Rattle.std.specs.Prelude.{◌≡◌, ◌≢◌, is_err, IfOk, length, min, false};
    ghost use Rattle.v6_port.specs.declared.host.OutPort.TheVariants.{Report};
    ghost use Rattle.v6_port.specs.Outside.{In, Out, IsOpen, IsThere};
    ghost use Rattle.v6_port.specs.Calls.{OpensRead, Reads, OpensWrite, Writes, Finishes};
    ghost use Rattle.v6_port.specs.Kept.{outside_of-report};
    ghost use Rattle.v6_port.specs.Memory.{memory, left, is_due, fails_open_read, fails_open_write, fails_write, IsOneCall};

    ghost outside = { λ host. (memory host).outside };

    ghost report_is_open = { λ host. outside_of-report (memory host).outside.fixed (λ q. ((memory host).outside.port q).bytes)
        host.ports };

    fn open_read(&mut self, port: InPort, name: &str) -> Result<(), Failed>
        ensures opens { OpensRead port name.now (memory self.old).outside result (memory self.new).outside }
        ensures fails { is_err result ≡ fails_open_read (memory self.old) name.now }
        ensures counts { IsOneCall (memory self.old) (memory self.new) }
    {
        let is_due = is_next_due(&mut self.calls, &self.fails);
        let number = port.number();
        let Some(file) = find(&self.files, name) else {
            return miss(&mut self.ports, number);
        };
        if is_due {
            return fault(&mut self.ports, number);
        }
        self.readings[number] = Some(Reading { file, at: 0 });
        set_open(&mut self.ports, number);
        Ok(())
    }

    fn read(&mut self, port: InPort, buf: &mut [u8]) -> Result<usize, Failed>
        requires { IsOpen (memory self.old).outside (In port) }
        ensures reads { Reads port (memory self.old).outside buf.new result (memory self.new).outside }
        ensures fails { is_err result ≡ is_due (memory self.old) }
        ensures count { IfOk result (λ n. n ≡ at_most (memory self.old).chunk
            (min (length buf.new) (length (left (memory self.old) port)))) }
        ensures counts { IsOneCall (memory self.old) (memory self.new) }
    {
        let number = port.number();
        if is_next_due(&mut self.calls, &self.fails) {
            return fault(&mut self.ports, number);
        }
        // A port that was opened has one.
        let Some(reading) = self.readings[number] else {
            return Ok(0);
        };
        let rest = rest_of(&self.files, reading);
        let count = at_most(self.chunk, rest.len().min(buf.len()));
        buf[..count].copy_from_slice(&rest[..count]);
        self.readings[number] = Some(Reading {
            file: reading.file,
            at: reading.at + count,
        });
        Ok(count)
    }

    fn open_write(&mut self, port: OutPort, name: &str) -> Result<(), Failed>
        requires closed { ((memory self.old).outside.port (Out port)).is_open ≡ false }
        requires there { IsThere port }
        ensures opens { OpensWrite port name.now (memory self.old).outside result (memory self.new).outside }
        ensures fails { is_err result ≡ fails_open_write (memory self.old) port name.now }
        ensures counts { IsOneCall (memory self.old) (memory self.new) }
    {
        let is_due = is_next_due(&mut self.calls, &self.fails);
        let number = port.number();
        if !is_name(&self.names[port.place()], name) {
            return miss(&mut self.ports, number);
        }
        if is_due {
            return fault(&mut self.ports, number);
        }
        set_open(&mut self.ports, number);
        Ok(())
    }

    fn write(&mut self, port: OutPort, piece: &[u8]) -> Result<usize, Failed>
        requires is_open { IsOpen (memory self.old).outside (Out port) }
        requires there { IsThere port }
        ensures writes { Writes port (memory self.old).outside piece.now result (memory self.new).outside }
        ensures fails { is_err result ≡ fails_write (memory self.old) port piece.now }
        ensures count { IfOk result (λ n. n ≡ at_most (memory self.old).chunk
            (min (length piece.now) ((memory self.old).room port))) }
        ensures counts { IsOneCall (memory self.old) (memory self.new) }
    {
        let number = port.number();
        let place = port.place();
        if is_next_due(&mut self.calls, &self.fails) {
            return fault(&mut self.ports, number);
        }
        let is_full = self.rooms[place].free == 0;
        let is_empty = piece.is_empty();
        if is_full && !is_empty {
            return fault(&mut self.ports, number);
        }
        Ok(self.rooms[place].append(piece, self.chunk))
    }

    fn finish(&mut self, port: OutPort) -> Result<(), Failed>
        requires is_open { IsOpen (memory self.old).outside (Out port) }
        requires not_report { port ≢ Report }
        requires there { IsThere port }
        ensures finishes { Finishes port (memory self.old).outside result (memory self.new).outside }
        ensures fails { is_err result ≡ is_due (memory self.old) }
        ensures counts { IsOneCall (memory self.old) (memory self.new) }
    {
        let number = port.number();
        if is_next_due(&mut self.calls, &self.fails) {
            return fault(&mut self.ports, number);
        }
        set_closed(&mut self.ports, number);
        Ok(())
    }
}
