// The changes of what a host keeps of its ports.
ghost use Rattle.std.specs.Prelude.{◌≡◌, ◌<◌, Err, true, false};
ghost use Rattle.v6_port.specs.Kept.{Faults, Misses, Turns};

use crate::host::Failed;
use crate::kept::{Kept, PORTS};

/// One fault more, up to the largest count there is. The answer is always the error.
pub(crate) fn fault<T>(ports: &mut [Kept; PORTS], number: usize) -> Result<T, Failed>
    requires { number < PORTS }
    ensures fails { result ≡ Err (record {}) }
    ensures counted { Faults number ports.old ports.new }
{
    ports[number].faults = ports[number].faults.saturating_add(1);
    Err(Failed)
}

/// The same, for a name that isn't known: one that is missing more, too.
pub(crate) fn miss<T>(ports: &mut [Kept; PORTS], number: usize) -> Result<T, Failed>
    requires { number < PORTS }
    ensures fails { result ≡ Err (record {}) }
    ensures counted { Misses number ports.old ports.new }
{
    ports[number].missing = ports[number].missing.saturating_add(1);
    fault(ports, number)
}

pub(crate) fn set_open(ports: &mut [Kept; PORTS], number: usize)
    requires { number < PORTS }
    ensures { Turns number true ports.old ports.new }
{
    ports[number].is_open = true;
}

pub(crate) fn set_closed(ports: &mut [Kept; PORTS], number: usize)
    requires { number < PORTS }
    ensures { Turns number false ports.old ports.new }
{
    ports[number].is_open = false;
}
