// A driver's buffer in main memory.
ghost use Rattle.std.specs.Prelude.{◌≡◌, ◌+◌, ◌/◌, ◌%◌, ◌≤◌};
ghost use Rattle.units.specs.Buffers.{span, whole};

#[derive(Clone, Copy, Debug, PartialEq, Eq)]
pub struct Buffer {
    pub address: u32,
    pub length: u32,
}

impl Buffer {
    // How many frames the buffer touches, for every address and length.
    pub fn span(self) -> u64
        ensures value { result ≡ span self.address self.length }
        ensures most { result ≤ 1048577 }
    {
        (self.address as u64 % 4096 + self.length as u64 + 4095) / 4096
    }

    // Address and length are multiples of 4,096.
    pub fn is_whole(self) -> bool
        ensures { result ≡ whole self.address self.length }
    {
        self.address % 4096 == 0 && self.length % 4096 == 0
    }

    // The address of the first byte past the buffer, which may be 2^32 or more.
    pub fn end(self) -> u64
        ensures { result ≡ self.address + self.length }
    {
        self.address as u64 + self.length as u64
    }
}
