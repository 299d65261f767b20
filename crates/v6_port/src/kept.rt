// What a host keeps of each of its ports, by the port's number: whether it is open, and its counts.
ghost use Rattle.std.specs.Prelude.{◌≡◌, ◌<◌};
ghost use Rattle.v6_port.specs.Outside.{in_number, out_number, place, IsThere};

use crate::host::{InPort, OutPort};

pub(crate) const INPUTS: usize = 4;

/// Line 0 has a place too, at which nothing stands: it is Term.
pub(crate) const OUTPUTS: usize = 13;

pub(crate) const PORTS: usize = INPUTS + OUTPUTS;

#[derive(Clone, Copy)]
pub(crate) struct Kept {
    pub(crate) is_open: bool,
    pub(crate) faults: u64,
    pub(crate) missing: u64,
}

impl Kept {
    pub(crate) const NOTHING: Kept = Kept {
        is_open: false,
        faults: 0,
        missing: 0,
    };
}

impl InPort {
    /// The port's number among all ports.
    pub(crate) fn number(self) -> usize
        ensures number { result ≡ in_number self }
        ensures below { result < PORTS }
    {
        match self {
            InPort::Image => 0,
            InPort::Script => 1,
            InPort::Log => 2,
            InPort::Second => 3,
        }
    }
}

impl OutPort {
    /// The port's number among all ports.
    pub(crate) fn number(self) -> usize
        requires { IsThere self }
        ensures number { result ≡ out_number self }
        ensures below { result < PORTS }
    {
        match self {
            OutPort::Term => 4,
            OutPort::Log => 5,
            OutPort::Final => 6,
            OutPort::Report => 7,
            OutPort::Second => 8,
            OutPort::Line(l) => 9 + l as usize,
        }
    }

    /// The port's place among those for writing.
    pub(crate) fn place(self) -> usize
        requires { IsThere self }
        ensures place { result ≡ place self }
        ensures below { result < OUTPUTS }
    {
        match self {
            OutPort::Term => 0,
            OutPort::Log => 1,
            OutPort::Final => 2,
            OutPort::Report => 3,
            OutPort::Second => 4,
            OutPort::Line(l) => 5 + l as usize,
        }
    }
}
