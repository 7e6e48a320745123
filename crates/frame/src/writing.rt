//! Writing a frame into lent memory: the header, and the payload behind it, which is handed on to be filled.
ghost use Rattle.std.specs.Prelude.{◌≡◌, ℕ, ◌/◌, cond, length, is_ok, OnOk};
ghost use Rattle.midpoint.specs.Refusals.{ByRows};
ghost use Rattle.frame.specs.Layout.{value_length, value_count_of, frame_length_of};
ghost use Rattle.frame.specs.Writing.{too_short, FirstFit, filled, with_frame};

use crate::refusal::Refusal;
use crate::turn::{HEADER_LENGTH, Turn};

/// Values that a frame carries: they fill its payload. They are a view of what is lent, so they can be copied, and
/// are let go of where memory is too short for the frame.
pub trait Values: Copy {
    /// The value at each index.
    ghost value: { Self → ℕ → ℕ };

    /// Puts the value of each index into a payload, as many as there is room for. Bytes at its end that are too few
    /// for a value stay as they were. The values that it puts fit into their bytes.
    fn fill(self, payload: &mut [u8])
        ensures payload { payload.new ≡ filled (value self) payload.old }
        ensures fit { FirstFit (value self) (length payload.old / value_length) };
}

impl Turn {
    /// Writes the frame into lent memory, and answers its length: the header, and as many of the values as the frame
    /// carries. Memory that is too short is refused, 7 at its length, and is left as it was; what lies behind the
    /// frame in longer memory is kept.
    pub fn write<V: Values>(&self, values: V, memory: &mut [u8]) -> Result<usize, Refusal>
        ensures answer { ByRows (too_short self.now memory.old) (λ e. e) (λ length. length ≡ frame_length_of self.now) result }
        ensures memory { memory.new ≡ cond (is_ok result) (with_frame self.now (V.value values) memory.old) memory.old }
        ensures fit { OnOk result (FirstFit (V.value values) (value_count_of self.now)) }
    {
        let length = self.fitting_memory(memory)?;
        memory[..HEADER_LENGTH].copy_from_slice(&self.header());
        values.fill(&mut memory[HEADER_LENGTH..length]);
        Ok(length)
    }

    /// Whether memory has room for the frame, whose length is answered; memory that is too short is refused, 7 at its
    /// length.
    pub fn fitting_memory(&self, memory: &[u8]) -> Result<usize, Refusal>
        ensures { ByRows (too_short self.now memory.now) (λ e. e) (λ length. length ≡ frame_length_of self.now) result }
    {
        let length = self.frame_length();
        if memory.len() < length {
            return Err(Refusal::Length {
                length: memory.len(),
            });
        }
        Ok(length)
    }
}
