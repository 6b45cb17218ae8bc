// Reads a script record by record.
ghost use Rattle.std.specs.Prelude.{◌≡◌, ◌+◌, ◌≤◌, length, take, IfSome, Some};
ghost use Rattle.script.specs.Format.{whole_end, item_at, answer_of, on_from};
ghost use Rattle.script.specs.Readers.{parsed, answered, script_of, place_of, ahead, Past, Forward};

use crate::record::Record;
use crate::value::read_value;
use units::{Fault, FaultKind};

// The most bytes that a script has.
const LONGEST: usize = 16_384;

// A script that is lent, and how far it has been read: the position stands beside the slice, since a refusal tells it.
#[derive(Drop)]
pub struct Reader<'s> {
    script: &'s [u8],
    position: usize,
}

impl<'s> Reader<'s> {
    // A reader at the start of a script, which is at most the first 16,384 bytes.
    pub fn new(script: &'s [u8]) -> Self
        ensures whole { script_of result ≡ take 16384 script.now }
        ensures start { place_of result ≡ 0 }
    {
        Reader {
            script: first_bytes(script),
            position: 0,
        }
    }

    // The offset of the record that is read next.
    pub fn position(&self) -> usize
        ensures { result ≡ place_of self.now }
    {
        self.position
    }

    // The next record, or none at the end; a refusal leaves the reader where it is, so this is no `Iterator`, which would refuse without end.
    pub fn next(&mut self) -> Result<Option<Record<'s>>, Fault>
        ensures answer { answered result ≡ answer_of (ahead self.old) }
        ensures moved { place_of self.new ≡ on_from (place_of self.old) (ahead self.old) }
        ensures kept { script_of self.new ≡ script_of self.old }
        ensures forward { Forward result self.old self.new }
    {
        let Some((record, next)) = read_record(self.script, self.position)? else {
            return Ok(None);
        };
        self.position = next;
        Ok(Some(record))
    }
}

// What a script is: its first 16,384 bytes.
#[tactic(auto, using(std::proofs::lemmas::List::take_min))]
fn first_bytes(script: &[u8]) -> &[u8]
    ensures { result.now ≡ take 16384 script.now }
{
    &script[..LONGEST.min(script.len())]
}

// The record that begins at `at`, and where the next one begins.
fn read_record(script: &[u8], at: usize) -> Result<Option<(Record<'_>, usize)>, Fault>
    ensures is { parsed result ≡ item_at script.now at }
    ensures past { Past result at (length script.now) }
{
    if at >= script.len() {
        return Ok(None);
    }
    let next = whole_end(script, at).ok_or(FaultKind::CutShort.at(at as u64))?;
    let record = read_value(script[at], &script[at + 3..next]).map_err(|kind| kind.at(at as u64))?;
    Ok(Some((record, next)))
}

// Where the record that begins at `at` ends, unless it is cut short.
fn whole_end(script: &[u8], at: usize) -> Option<usize>
    requires { at ≤ length script.now }
    ensures is { result ≡ whole_end script.now at }
    ensures within { IfSome result (λ next. (at + 3 ≤ next) × (next ≤ length script.now)) }
{
    let [_, low, high, ..] = &script[at..] else {
        return None;
    };
    let next = at + 3 + usize::from(u16::from_le_bytes([*low, *high]));
    (next <= script.len()).then_some(next)
}

#[cfg(test)]
mod tests {
    use super::*;

    // Where a script ends, or the number of the refusal that ends it and its place.
    fn ending(script: &[u8]) -> Result<u64, (u8, u64)> {
        let mut reader = Reader::new(script);
        let refusal = |fault: Fault| (u8::from(fault.kind), fault.place);
        while reader.next().map_err(refusal)?.is_some() {}
        Ok(reader.position() as u64)
    }

    // Writes CPU reads one after another, each of 8 bytes.
    fn fill_with_reads(bytes: &mut [u8]) {
        for record in bytes.chunks_mut(8) {
            if let [tag, length, ..] = record {
                *tag = 6;
                *length = 5;
            }
        }
    }

    // A CPU write to 0x100 lends its two bytes.
    #[test]
    fn reads_a_write(rt: HostRuntime) {
        let script = [5, 6, 0, 0, 1, 0, 0, 0x41, 0x42];
        let mut reader = Reader::new(&script);
        let write = Record::CpuWrite {
            address: 0x100,
            bytes: &[0x41, 0x42],
        };
        assert_eq!(rt; reader.next(), Ok(Some(write)));
        assert_eq!(rt; reader.next(), Ok(None));
    }

    // A cut header, a cut value, an unknown tag, and a wrong size in the second record.
    #[test]
    fn refuses(rt: HostRuntime) {
        assert_eq!(rt; ending(&[5, 6]), Err((18, 0)));
        assert_eq!(rt; ending(&[9, 2, 0, 1]), Err((18, 0)));
        assert_eq!(rt; ending(&[9, 1, 0, 1]), Err((19, 0)));
        assert_eq!(rt; ending(&[6, 5, 0, 0, 0, 0, 0, 1, 6, 1, 0, 1]), Err((20, 8)));
    }

    // A script may be empty; one that ends at the edge ends there whatever follows; what crosses the edge is cut short.
    #[test]
    fn ends(rt: HostRuntime) {
        assert_eq!(rt; ending(&[]), Ok(0));
        let mut bytes = [0u8; 16_385];
        fill_with_reads(&mut bytes);
        assert_eq!(rt; ending(&bytes[0..16_384]), Ok(16_384));
        assert_eq!(rt; ending(&bytes), Ok(16_384));
        bytes[16_377] = 6;
        assert_eq!(rt; ending(&bytes), Err((18, 16_376)));
    }
}
