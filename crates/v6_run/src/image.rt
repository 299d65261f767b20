//! Disk images that a command reads.
ghost use Rattle.std.specs.Prelude.{◌≡◌, take, Some, None, IfOk, MatchResult};
ghost use Rattle.std.specs.Option.{option_map};
ghost use Rattle.v6_port.specs.Outside.{In, OnlyAt, Tells, same};
ghost use Rattle.v6_port.specs.declared.host.InPort.TheVariants.{Image, Second};
ghost use Rattle.v6_port.specs.Causes.{Calm};
ghost use Rattle.fs_codec.specs.Faults.{image_fault};
ghost use Rattle.unix_core.specs.Boots.{second_fault_of};
ghost use Rattle.v6_run.specs.Steps.{StopsImage, StopsSecond};

use crate::files::{ReadError, read_file};
use fs_check::{ImageFault, accept};
use fs_codec::DISK_BYTES;
use std::alloc::Global;
use unix_core::{SecondFault, second_fault};
use v6_port::{Host, InPort};

/// The most bytes of an image that are read: one more than a disk has.
pub(crate) const IMAGE_LIMIT: usize = DISK_BYTES + 1;

/// Why a command has no image.
#[derive(Clone, Copy)]
pub(crate) enum ImageError {
    /// It could not be read.
    Unread(ReadError),
    /// It has this first fault.
    Faulty(ImageFault),
}

impl From<ReadError> for ImageError {
    ghost use Rattle.std.specs.Prelude.{◌≡◌};
    ghost use Rattle.v6_run.specs.declared.image.ImageError.TheVariants.{Unread};

    ghost from_gives = { λ error image_error. image_error ≡ Unread error };

    fn from(error: ReadError) -> ImageError {
        ImageError::Unread(error)
    }
}

/// Why a command has no second image.
#[derive(Clone, Copy)]
pub(crate) enum SecondError {
    /// It could not be read.
    Unread(ReadError),
    /// It has this first fault, or there are too many inodes with it.
    Faulty(SecondFault),
}

impl From<ReadError> for SecondError {
    ghost use Rattle.std.specs.Prelude.{◌≡◌};
    ghost use Rattle.v6_run.specs.declared.image.SecondError.TheVariants.{Unread};

    ghost from_gives = { λ error second_error. second_error ≡ Unread error };

    fn from(error: ReadError) -> SecondError {
        SecondError::Unread(error)
    }
}

/// Reads the image of this name, which has no fault.
pub(crate) fn read_image<H: Host>(
    alloc: Global,
    name: &str,
    host: &mut H,
) -> Result<Vec<u8>, ImageError>
    ensures only { OnlyAt (same (In Image)) (H.outside host.old) (H.outside host.new) }
    ensures bytes { IfOk result (λ image. Tells (H.outside host.old)
        → option_map (take IMAGE_LIMIT) ((H.outside host.old).fixed.given name.now) ≡ Some image.items) }
    ensures good { IfOk result (λ image. image_fault image.items ≡ None) }
    ensures cause { MatchResult result (λ _. Calm (H.outside host.old) (H.outside host.new))
        (λ error. StopsImage name.now error (H.outside host.old) (H.outside host.new)) }
{
    let image = read_file(alloc, host, InPort::Image, name, IMAGE_LIMIT)?;
    match accept(&image) {
        Ok(()) => Ok(image),
        Err(fault) => Err(ImageError::Faulty(fault)),
    }
}

/// Reads the image of this name for a second disk beside that of an image without a fault.
pub(crate) fn read_second<H: Host>(
    alloc: Global,
    image: &[u8],
    name: &str,
    host: &mut H,
) -> Result<Vec<u8>, SecondError>
    requires { image_fault image.now ≡ None }
    ensures only { OnlyAt (same (In Second)) (H.outside host.old) (H.outside host.new) }
    ensures bytes { IfOk result (λ second. Tells (H.outside host.old)
        → option_map (take IMAGE_LIMIT) ((H.outside host.old).fixed.given name.now) ≡ Some second.items) }
    ensures good { IfOk result (λ second. second_fault_of image.now second.items ≡ None) }
    ensures cause { MatchResult result (λ _. Calm (H.outside host.old) (H.outside host.new))
        (λ error. StopsSecond image.now name.now error (H.outside host.old) (H.outside host.new)) }
{
    let second = read_file(alloc, host, InPort::Second, name, IMAGE_LIMIT)?;
    match second_fault(image, &second) {
        None => Ok(second),
        Some(fault) => Err(SecondError::Faulty(fault)),
    }
}
