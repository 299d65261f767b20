//! The script of the demo.
ghost use Rattle.std.specs.Prelude.{◌≡◌, IfOk};
ghost use Rattle.make_image.specs.Demo.{demo_text};

use std::alloc::{AllocError, Global};

const SCRIPT: &str = "clock 100\nrun 20000\ntype hello\nrun 20000\nbyte 004\nrun 20000\n";

/// The script of the demo, which a disk of [`build`](crate::build) is taken through: a line is typed at the shell that its
/// `/etc/init` plays, and then the end of a file, in 60,000 slots with a tick after every hundredth. The only error is that
/// memory ends.
#[tactic(auto, unfolding(crate::specs::Demo::demo_text))]
pub fn demo_script(alloc: Global) -> Result<Vec<u8>, AllocError>
    ensures { IfOk result (λ script. script.items ≡ demo_text) }
{
    let mut script = Vec::new(alloc);
    script.extend_from_slice(SCRIPT.as_bytes())?;
    Ok(script)
}
