//! A host that gives and takes one byte a call.
use v6_port::{Failed, Host, InPort, OutPort};

/// Another host, one byte a call.
#[derive(Drop)]
pub struct OneByte<H: Host> {
    pub host: H,
}

impl<H: Host> Host for OneByte<H> {
    ghost outside = { λ h. H.outside h.host };

    ghost report_is_open = { λ h. H.report_is_open h.host };

    fn open_read(&mut self, port: InPort, name: &str) -> Result<(), Failed> {
        self.host.open_read(port, name)
    }

    fn read(&mut self, port: InPort, buf: &mut [u8]) -> Result<usize, Failed> {
        let end = buf.len().min(1);
        self.host.read(port, &mut buf[..end])
    }

    fn open_write(&mut self, port: OutPort, name: &str) -> Result<(), Failed> {
        self.host.open_write(port, name)
    }

    fn write(&mut self, port: OutPort, piece: &[u8]) -> Result<usize, Failed> {
        let end = piece.len().min(1);
        self.host.write(port, &piece[..end])
    }

    fn finish(&mut self, port: OutPort) -> Result<(), Failed> {
        self.host.finish(port)
    }
}
