//! Where the parts of one image stand.
ghost use Rattle.std.specs.Prelude.{◌≡◌, ◌%◌, ◌≤◌};
ghost use Rattle.v6_base.specs.Image.{data_base};

/// Where the text of an image stands, and its data with the stack behind them, in the line of core and the swap area, and
/// how long they are, in bytes. They are looked up once for as many accesses as come.
#[derive(Clone, Copy, Debug, PartialEq, Eq)]
pub(crate) struct Starts {
    pub text: usize,
    pub text_len: usize,
    pub image: usize,
    /// The address at which the data begin.
    pub base: usize,
    pub data_len: usize,
    /// The address at which the stack begins.
    pub stack_start: usize,
    /// The bytes of core.
    pub core: usize,
    pub ghost low_text: { text ≤ 1000000 },
    pub ghost low_image: { image ≤ 1000000 },
    pub ghost is_base: { base ≡ data_base text_len },
    pub ghost text_in: { text_len ≤ 65536 },
    pub ghost data_in: { data_len ≤ 65536 },
    pub ghost stack_in: { stack_start ≤ 65536 },
    pub ghost text_even: { text_len % 2 ≡ 0 },
    pub ghost data_even: { data_len % 2 ≡ 0 },
    pub ghost stack_even: { stack_start % 2 ≡ 0 },
}
