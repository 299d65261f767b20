// The trait that stands for the outside, and its ports.
ghost use Rattle.std.specs.Prelude.{◌≡◌, ◌≢◌, false};
ghost use Rattle.v6_port.specs.Outside.{Outside, In, Out, IsOpen, IsThere};
ghost use Rattle.v6_port.specs.declared.host.OutPort.TheVariants.{Report};
ghost use Rattle.v6_port.specs.Calls.{OpensRead, Reads, OpensWrite, Writes, Finishes};

/// What a command reads: the image of a disk, the script of what happens when, a log, and the image of a second disk.
/// `run2` alone opens Second.
#[derive(Clone, Copy, Debug, PartialEq, Eq)]
pub enum InPort {
    Image,
    Script,
    Log,
    Second,
}

/// What a command writes: the bytes of the terminal, the log, the final image of the disk, the report on how the command
/// ended, the final image of a second disk, and the bytes of the terminal's lines 1 to 7, which stand beside its line 0. Report
/// is always open. `run8` alone opens the lines 1 to 7, and `run2` alone opens Second.
#[derive(Clone, Copy, Debug, PartialEq, Eq)]
pub enum OutPort {
    Term,
    Log,
    Final,
    Report,
    Second,
    Line(u8),
}

/// The answer of a call that could not be done. The port's count of faults has risen then.
#[derive(Clone, Copy, Debug, PartialEq, Eq)]
pub struct Failed;

/// The outside of a command: ports to read from and to write to.
///
/// A call that fails raises the count of faults of its own port, and of no other. It leaves what is open,
/// what is left to be read and what was written. A call that succeeds leaves every count.
pub trait Host {
    /// What is seen of the outside: the state of each port, and what stays for good.
    ghost outside: { Self → Outside };

    /// Opens the port for reading at the first byte of the file of this name.
    ///
    /// # Errors
    ///
    /// There is no such file, which raises the port's count of missing names too, or it could not be opened.
    fn open_read(&mut self, port: InPort, name: &str) -> Result<(), Failed>
        ensures { OpensRead port name.now (outside self.old) result (outside self.new) };

    /// Reads the next bytes into the front of `buf`, and says how many. None into a buffer that isn't empty
    /// is the end.
    ///
    /// # Errors
    ///
    /// The bytes could not be read.
    fn read(&mut self, port: InPort, buf: &mut [u8]) -> Result<usize, Failed>
        requires { IsOpen (outside self.old) (In port) }
        ensures { Reads port (outside self.old) buf.new result (outside self.new) };

    /// Opens the port for writing, under this name.
    ///
    /// # Errors
    ///
    /// The port doesn't expect that name, which raises its count of missing names too, or it could not be opened.
    fn open_write(&mut self, port: OutPort, name: &str) -> Result<(), Failed>
        requires closed { ((outside self.old).port (Out port)).is_open ≡ false }
        requires there { IsThere port }
        ensures { OpensWrite port name.now (outside self.old) result (outside self.new) };

    /// Writes the first bytes of `piece` after what was written, and says how many: at least one, unless
    /// `piece` is empty.
    ///
    /// # Errors
    ///
    /// None of the bytes could be written.
    fn write(&mut self, port: OutPort, piece: &[u8]) -> Result<usize, Failed>
        requires is_open { IsOpen (outside self.old) (Out port) }
        requires there { IsThere port }
        ensures { Writes port (outside self.old) piece.now result (outside self.new) };

    /// Closes a port that was opened for writing.
    ///
    /// # Errors
    ///
    /// The port could not be closed, and is still open.
    fn finish(&mut self, port: OutPort) -> Result<(), Failed>
        requires is_open { IsOpen (outside self.old) (Out port) }
        requires not_report { port ≢ OutPort.Report }
        requires there { IsThere port }
        ensures { Finishes port (outside self.old) result (outside self.new) };

    /// Report is always open.
    ghost report_is_open: { (host : Self) → IsOpen (outside host) (Out Report) };
}
