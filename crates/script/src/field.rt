// The fields of a record's value, by the place where each begins. Each asks that the field lies within the value, whose length its caller has checked.
ghost use Rattle.std.specs.Prelude.{◌≡◌, ◌+◌, ◌≤◌, length, take, drop};
ghost use Rattle.script.specs.Values.{word, device};

use units::DeviceAddress;

// An address in memory or a length: four bytes, lowest first.
pub fn word_at(value: &[u8], at: usize) -> u32
    requires { at + 4 ≤ length value.now }
    ensures { result ≡ word value.now at }
{
    u32::from_le_bytes(bytes_at(value, at))
}

// A device address: eight bytes, lowest first.
pub fn device_at(value: &[u8], at: usize) -> DeviceAddress
    requires { at + 8 ≤ length value.now }
    ensures { result ≡ device value.now at }
{
    DeviceAddress(u64::from_le_bytes(bytes_at(value, at)))
}

// The N bytes from `at` on.
fn bytes_at<const N: usize>(value: &[u8], at: usize) -> [u8; N]
    requires { at + N ≤ length value.now }
    ensures { result ≡ take N (drop at value.now) }
{
    value[at..at + N].try_into().unwrap()
}
