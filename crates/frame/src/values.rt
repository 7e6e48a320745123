//! Values in a frame's payload, read and put by index.
ghost use Rattle.std.specs.Prelude.{◌≡◌, ◌/◌, ◌≤◌, length, slice_get, slice_index, nat_lt, MatchOption};
ghost use Rattle.frame.specs.Layout.{values_in, value_length};
ghost use Rattle.frame.specs.Writing.{StartsAt, with_value};

use crate::turn::VALUE_LENGTH;
use crate::writing::Values;

/// The value at an index of a payload, or nothing past its end.
#[tactic(auto, using(crate::proofs::Payloads::value_at, crate::proofs::Payloads::no_value_at))]
pub fn value(payload: &[u8], index: usize) -> Option<u32>
    ensures { result ≡ slice_get (values_in payload.now) index }
{
    let start = start_of(payload.len(), index)?;
    Some(u32::from_le_bytes([
        payload[start],
        payload[start + 1],
        payload[start + 2],
        payload[start + 3],
    ]))
}

/// Puts a value at an index of a payload, and answers whether there is room for it; if not, the payload is left
/// as it was.
pub fn put_value(payload: &mut [u8], index: usize, value: u32) -> bool
    ensures answer { result ≡ nat_lt index (length payload.old / value_length) }
    ensures payload { payload.new ≡ with_value index value payload.old }
{
    let Some(start) = start_of(payload.len(), index) else {
        return false;
    };
    payload[start..start + VALUE_LENGTH].copy_from_slice(&value.to_le_bytes());
    true
}

// Where the value at an index starts in a payload of this length, if there is room for it.
fn start_of(length: usize, index: usize) -> Option<usize>
    ensures { MatchOption result (length / value_length ≤ index) (StartsAt length index) }
{
    (index < length / VALUE_LENGTH).then(|| VALUE_LENGTH * index)
}

/// The values of a list in their order, and 0 at each index past its end.
impl Values for &[u32] {
    ghost value = { λ values. slice_index values.now };

    fn fill(self, payload: &mut [u8]) {
        for index in 0..payload.len() / VALUE_LENGTH {
            let value = self.get(index).copied().unwrap_or(0);
            put_value(payload, index, value);
        }
    }
}
