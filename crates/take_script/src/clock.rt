//! The clock that a script sets, and the line on which it types.
ghost use Rattle.std.specs.Prelude.{◌≡◌, ◌≢◌, ◌<◌, ◌+◌, ◌%◌};

/// The clock that a script has set, and where is typed.
#[derive(Drop)]
pub(crate) struct Clock {
    /// A tick comes after every so manyth slot. 0 is none.
    pub(crate) every: u32,
    /// So many slots have been taken since the clock was set, or since its last tick. They aren't counted where it is none.
    pub(crate) since: u32,
    /// What is typed is typed on this terminal line.
    pub(crate) line: u8,
    ghost counted: { every ≢ 0 → since < every },
    ghost eight: { line < 8 },
}

/// How many slots have been taken since the last tick, or the clock was set, when so many more are taken.
pub(crate) fn since_after(every: u32, since: u32, count: u32) -> u32
    requires { every ≢ 0 }
    ensures { result ≡ (since + count) % every }
{
    ((u64::from(since) + u64::from(count)) % u64::from(every)) as u32
}
