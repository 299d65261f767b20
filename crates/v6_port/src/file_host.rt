// Real files. This is the edge: what the system gives and takes is trusted, and nothing here tells it.
ghost use Rattle.std.specs.Prelude.{◌≡◌, ◌≤◌, length, None, IfOk, OnOk};
ghost use Rattle.v6_port.specs.Outside.{IsNew, IsIdle, IsThere};

use crate::buffered_writer::BufferedWriter;
use crate::counts::{fault, set_closed, set_open};
use crate::host::{Failed, Host, InPort, OutPort};
use crate::kept::{INPUTS, Kept, OUTPUTS, PORTS};
use std::io::{Read, Write};
use std::rt::Files;
use std::{fs, io};

/// A host over the files of the system: a port's name is the path of its file. An output file is emptied
/// when it is opened. What is written to it is held, and given out where 2048 bytes are held and more are to be
/// written, when the port is finished, and when the host is let go. Report is standard output, at once.
///
/// It tells nothing of its bytes. A file that isn't there is a fault, and so is a write that takes no byte.
/// Bytes that can't be given out are a fault of the call that tries to: a later write, or `finish`.
#[derive(Drop)]
pub struct FileHost<R: Files + Print + Drop> {
    // First, so that the buffers are let go before anything else: they are moved once then.
    outputs: [Option<BufferedWriter<R::File>>; OUTPUTS],
    inputs: [Option<R::File>; INPUTS],
    rt: R,
    ports: [Kept; PORTS],
}

impl<R: Files + Print + Drop> FileHost<R> {
    /// A host with no file open and no fault yet.
    pub fn new(rt: R) -> Self
        ensures fresh { IsNew (⟦<FileHost<R> as Host>⟧.outside result) }
        ensures idle { IsIdle (⟦<FileHost<R> as Host>⟧.outside result) }
    {
        FileHost {
            rt,
            inputs: [None, None, None, None],
            outputs: [
                None, None, None, None, None, None, None, None, None, None, None, None, None,
            ],
            ports: [Kept::NOTHING; PORTS],
        }
    }
}

// What can't be given out is kept.
fn give_out<W: Write + Drop>(outputs: &mut [Option<BufferedWriter<W>>; OUTPUTS]) {
    for output in outputs.iter_mut() {
        if let Some(file) = output {
            let _ = file.flush();
        }
    }
}

// Report goes to standard output, after all that is held, since that may go there too.
fn report<R: Files + Print>(
    rt: &R,
    outputs: &mut [Option<BufferedWriter<R::File>>; OUTPUTS],
    piece: &[u8],
) -> Result<usize, Failed>
    ensures { IfOk result (λ n. n ≤ length piece.now) }
{
    give_out(outputs);
    match rt.write_some(piece) {
        Ok(count) => Ok(count),
        Err(_) => Err(Failed),
    }
}

// Writes a piece for which the buffer has no room. The result of std's write is large: where it lies would be cleared for each
// piece, if this stood inline.
#[cold]
#[inline(never)]
fn write_rest<W: Write + Drop>(file: &mut BufferedWriter<W>, piece: &[u8]) -> Result<usize, Failed>
    ensures { IfOk result (λ n. n ≤ length piece.now) }
{
    match file.write(piece) {
        Ok(count) => Ok(count),
        Err(_) => Err(Failed),
    }
}

// What is for another port than Report goes to its file.
fn put<R: Files + Print>(
    rt: &R,
    outputs: &mut [Option<BufferedWriter<R::File>>; OUTPUTS],
    port: OutPort,
    piece: &[u8],
) -> Result<usize, Failed>
    requires { IsThere port }
    ensures { IfOk result (λ n. n ≤ length piece.now) }
{
    if let OutPort::Report = port {
        return report(rt, outputs, piece);
    }
    match &mut outputs[port.place()] {
        Some(file) => {
            if file.takes(piece) {
                return Ok(piece.len());
            }
            write_rest(file, piece)
        }
        None => Ok(0),
    }
}

// Gives out what is held, and lets the file go.
fn close<W: Write + Drop>(output: &mut Option<BufferedWriter<W>>) -> io::Result<()>
    ensures closed { OnOk result (output.new ≡ None) }
{
    if let Some(file) = output {
        file.flush()?;
    }
    *output = None;
    Ok(())
}

impl<R: Files + Print + Drop> Host for FileHost<R> {
    ghost use Rattle.v6_port.specs.Kept.{silent, silent-report};

    ghost outside = { λ host. silent host.ports };

    ghost report_is_open = { λ host. silent-report host.ports };

    fn open_read(&mut self, port: InPort, name: &str) -> Result<(), Failed> {
        let number = port.number();
        let Ok(file) = fs::open(&self.rt, name) else {
            return fault(&mut self.ports, number);
        };
        self.inputs[number] = Some(file);
        set_open(&mut self.ports, number);
        Ok(())
    }

    fn read(&mut self, port: InPort, buf: &mut [u8]) -> Result<usize, Failed> {
        let number = port.number();
        let Some(file) = &mut self.inputs[number] else {
            return fault(&mut self.ports, number);
        };
        let Ok(count) = file.read(buf) else {
            return fault(&mut self.ports, number);
        };
        Ok(count)
    }

    fn open_write(&mut self, port: OutPort, name: &str) -> Result<(), Failed> {
        let number = port.number();
        let Ok(file) = fs::create(&self.rt, name) else {
            return fault(&mut self.ports, number);
        };
        self.outputs[port.place()] = Some(BufferedWriter::new(file));
        set_open(&mut self.ports, number);
        Ok(())
    }

    fn write(&mut self, port: OutPort, piece: &[u8]) -> Result<usize, Failed> {
        let Ok(count) = put(&self.rt, &mut self.outputs, port, piece) else {
            return fault(&mut self.ports, port.number());
        };
        if count == 0 && !piece.is_empty() {
            return fault(&mut self.ports, port.number());
        }
        Ok(count)
    }

    fn finish(&mut self, port: OutPort) -> Result<(), Failed> {
        let number = port.number();
        if close(&mut self.outputs[port.place()]).is_err() {
            return fault(&mut self.ports, number);
        }
        set_closed(&mut self.ports, number);
        Ok(())
    }
}
