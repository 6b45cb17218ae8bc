// What a record's value says, by the record's tag.
ghost use Rattle.std.specs.Prelude.{◌≡◌, ◌≢◌, length, drop, true, false, MatchResult};
ghost use Rattle.script.specs.Values.{told, has_data, map_of, unmap_of, sync_of, cpu_write_of, cpu_read_of, card_write_of, card_read_of, item_of};

use crate::field::{device_at, word_at};
use crate::record::Record;
use units::{Buffer, Card, FaultKind, Request, Sync, UnmapRequest};

// The record that a tag and a value make. A match and no table of functions: the tag is a byte of the format, and each form has fields of its own.
pub fn read_value(tag: u8, value: &[u8]) -> Result<Record<'_>, FaultKind>
    ensures { told result ≡ item_of tag value.now }
{
    match tag {
        1 => map(value),
        2 => unmap(value),
        3 => sync(Sync::ForCpu, value),
        4 => sync(Sync::ForCard, value),
        5 => cpu_write(value),
        6 => cpu_read(value),
        7 => card_write(value),
        8 => card_read(value),
        _ => Err(FaultKind::UnknownTag),
    }
}

// A value of N bytes.
fn sized<const N: usize>(value: &[u8]) -> Result<&[u8; N], FaultKind>
    ensures { MatchResult result (λ whole. (length value.now ≡ N) × (whole.now ≡ value.now)) (λ kind. (length value.now ≢ N) × (kind ≡ FaultKind.WrongSize)) }
{
    value.as_array().ok_or(FaultKind::WrongSize)
}

// The data of a value, past n bytes of other fields: 1 to 64 bytes.
fn data_past(n: usize, value: &[u8]) -> Result<&[u8], FaultKind>
    ensures { MatchResult result (λ rest. (has_data n value.now ≡ true) × (rest.now ≡ drop n value.now)) (λ kind. (has_data n value.now ≡ false) × (kind ≡ FaultKind.WrongSize)) }
{
    match value.get(n..) {
        Some(rest) if (1..=64).contains(&rest.len()) => Ok(rest),
        _ => Err(FaultKind::WrongSize),
    }
}

// Card, direction, address and length.
fn map(value: &[u8]) -> Result<Record<'_>, FaultKind>
    ensures { told result ≡ map_of value.now }
{
    let value = sized::<10>(value)?;
    Ok(Record::Map(Request {
        card: Card(value[0]),
        direction: value[1],
        buffer: Buffer {
            address: word_at(value, 2),
            length: word_at(value, 6),
        },
    }))
}

// Card, direction, device address and length.
fn unmap(value: &[u8]) -> Result<Record<'_>, FaultKind>
    ensures { told result ≡ unmap_of value.now }
{
    let value = sized::<14>(value)?;
    Ok(Record::Unmap(UnmapRequest {
        card: Card(value[0]),
        direction: value[1],
        device: device_at(value, 2),
        length: word_at(value, 10),
    }))
}

// Card and device address.
fn sync(call: Sync, value: &[u8]) -> Result<Record<'_>, FaultKind>
    ensures { told result ≡ sync_of call value.now }
{
    let value = sized::<9>(value)?;
    Ok(Record::Sync {
        call,
        card: Card(value[0]),
        device: device_at(value, 1),
    })
}

// Address and data.
fn cpu_write(value: &[u8]) -> Result<Record<'_>, FaultKind>
    ensures { told result ≡ cpu_write_of value.now }
{
    let bytes = data_past(4, value)?;
    Ok(Record::CpuWrite {
        address: word_at(value, 0),
        bytes,
    })
}

// Address and count.
fn cpu_read(value: &[u8]) -> Result<Record<'_>, FaultKind>
    ensures { told result ≡ cpu_read_of value.now }
{
    let value = sized::<5>(value)?;
    Ok(Record::CpuRead {
        address: word_at(value, 0),
        count: value[4],
    })
}

// Card, device address and data.
fn card_write(value: &[u8]) -> Result<Record<'_>, FaultKind>
    ensures { told result ≡ card_write_of value.now }
{
    let bytes = data_past(9, value)?;
    Ok(Record::CardWrite {
        card: Card(value[0]),
        device: device_at(value, 1),
        bytes,
    })
}

// Card, device address and count.
fn card_read(value: &[u8]) -> Result<Record<'_>, FaultKind>
    ensures { told result ≡ card_read_of value.now }
{
    let value = sized::<10>(value)?;
    Ok(Record::CardRead {
        card: Card(value[0]),
        device: device_at(value, 1),
        count: value[9],
    })
}
