// The moves of bytes that calls make: each changes exactly the bytes that its definition names.
// Each takes the whole memory and a place in it, and asks that this lies within: its definition speaks of every byte of memory.
ghost use Rattle.std.specs.Prelude.{◌≡◌, ◌+◌, ◌≤◌, length};
ghost use Rattle.meaning.specs.Memory.{bytes_of, clear, copy, paste, read_into};

// Writes the bytes at an address.
#[tactic(auto, using(crate::proofs::Part::written_at))]
pub fn write_bytes(memory: &mut [u8], at: usize, bytes: &[u8])
    requires { at + length bytes.now ≤ length memory.old }
    ensures { bytes_of memory.new ≡ paste at bytes.now (bytes_of memory.old) }
{
    memory[at..at + bytes.len()].copy_from_slice(bytes);
}

// Copies bytes to another place, which may overlap them. Where the two lie apart, as in each call, it is a copy between two parts
// of memory, at the speed of `memcpy`; `copy_within` goes byte by byte, and backward to a higher place.
#[tactic(auto, using(crate::proofs::Part::copied_up, crate::proofs::Part::copied_down, crate::proofs::Part::copied_within))]
pub fn copy_bytes(memory: &mut [u8], to: usize, from: usize, count: usize)
    requires target { to + count ≤ length memory.old }
    requires source { from + count ≤ length memory.old }
    ensures { bytes_of memory.new ≡ copy to from count (bytes_of memory.old) }
{
    if from + count <= to {
        let (below, above) = memory.split_at_mut(to);
        write_bytes(above, 0, &below[from..from + count]);
    } else if to + count <= from {
        let (below, above) = memory.split_at_mut(from);
        write_bytes(below, to, &above[..count]);
    } else {
        memory.copy_within(from..from + count, to);
    }
}

// Makes bytes 0.
#[tactic(auto, using(crate::proofs::Part::cleared_at))]
pub fn clear_bytes(memory: &mut [u8], at: usize, count: usize)
    requires { at + count ≤ length memory.old }
    ensures { bytes_of memory.new ≡ clear at count (bytes_of memory.old) }
{
    memory[at..at + count].fill(0);
}

// Reads bytes into the front of an answer buffer. The count stands beside the buffer, since its further bytes stay.
#[tactic(auto, using(crate::proofs::Part::front_bytes))]
pub fn read_bytes(memory: &[u8], from: usize, count: usize, out: &mut [u8])
    requires source { from + count ≤ length memory.now }
    requires room { count ≤ length out.old }
    ensures { bytes_of out.new ≡ read_into out.old count from (bytes_of memory.now) }
{
    out[..count].copy_from_slice(&memory[from..from + count]);
}
