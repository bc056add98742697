ghost use Rattle.std.specs.Prelude.{◌≡◌, ◌<◌, ◌≤◌, ◌+◌, ◌^◌, ◌++◌};
ghost use Rattle.l3_bits.specs.Bits.{digits};

/// A code: the low `length` binary digits of `value`, the first bit being the most significant of
/// them.
#[derive(Clone, Copy, Debug, PartialEq, Eq)]
pub struct Code {
    pub value: u64,
    pub length: u8,
}

impl Code {
    // The code, and after it the low `length` binary digits of `value`.
    pub(crate) fn followed_by(self, value: u64, length: u8) -> Code
        requires code { self.value < 2 ^ self.length }
        requires value { value < 2 ^ length }
        requires room { self.length + length < 64 }
        ensures digits { digits result.length result.value ≡ digits self.length self.value ++ digits length value }
        ensures small { result.value < 2 ^ result.length }
        ensures length { result.length ≡ self.length + length }
    {
        Code {
            value: (self.value << length) + value,
            length: self.length + length,
        }
    }
}
