// Named files in memory.
ghost use Rattle.std.specs.Prelude.{◌≡◌, ◌<◌, ◌+◌, ◌^◌, length, Some, None, MatchOption, drop};
ghost use Rattle.v6_port.specs.Files.{bytes_at, given_by};

/// A file to be read.
#[derive(Drop)]
pub(crate) struct NamedFile {
    pub(crate) name: String,
    pub(crate) bytes: Vec<u8>,
}

/// A file that is being read, by its index, and the index of the next byte.
#[derive(Clone, Copy)]
pub(crate) struct Reading {
    pub(crate) file: usize,
    pub(crate) at: usize,
}

/// The index of the file that was added last under the name.
pub(crate) fn find(files: &[NamedFile], name: &str) -> Option<usize>
    ensures { MatchOption result
        (given_by files.now name.now ≡ None)
        (λ i. (i < length files.now) × (given_by files.now name.now ≡ Some (bytes_at files.now i))) }
{
    let mut found = None;
    for (i, file) in files.iter().enumerate() {
        if file.name.as_str() == name {
            found = Some(i);
        }
    }
    found
}

/// What is left of a file that is being read.
pub(crate) fn rest_of(files: &[NamedFile], reading: Reading) -> &[u8]
    requires { reading.file < length files.now }
    ensures rest { result.now ≡ drop reading.at (bytes_at files.now reading.file) }
    ensures fits { reading.at + length result.now < 2 ^ 64 }
{
    let bytes = files[reading.file].bytes.as_slice();
    &bytes[reading.at.min(bytes.len())..]
}
