// Where a device address stands in the tables of each level.
ghost use Rattle.std.specs.Prelude.{◌≡◌, ◌/◌, ◌∷◌, []};
ghost use Rattle.walk.specs.Indices.{bits_from, indices_of};

use units::{DeviceAddress, DevicePage};

// The indices of levels 4, 3, 2 and 1: bits 47-39, 38-30, 29-21 and 20-12 of the address.
pub fn indices(device: DeviceAddress) -> [u64; 4]
    ensures value { result ≡ indices_of (device.0 / 4096) }
    ensures bits { result ≡ bits_from 39 device.0 ∷ bits_from 30 device.0 ∷ bits_from 21 device.0 ∷ bits_from 12 device.0 ∷ [] }
{
    page_indices(device.page())
}

// The same of a page.
pub(crate) fn page_indices(page: DevicePage) -> [u64; 4]
    ensures { result ≡ indices_of page.0 }
{
    let lower = page.0 / 512;
    let middle = lower / 512;
    let upper = middle / 512;
    [upper % 512, middle % 512, lower % 512, page.0 % 512]
}
