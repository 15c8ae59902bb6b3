//! What is counted while a text is read: functions, frames, and the bytes of frames.

ghost use Rattle.std.specs.Prelude.{◌≤◌, OnOk};
ghost use Rattle.alf_reader.specs.Grammar.{one_function, one_frame, fits_frame, more_bytes, bits, most_frame_bytes};
ghost use Rattle.alf_reader.specs.Reading.{Reads};

use crate::fault::Departure;
use crate::reader::Reader;
use flow_base::Which;

/// The most functions of a program.
pub const MOST_FUNCTIONS: u64 = 256;

/// The most frames of a program.
pub const MOST_FRAMES: u64 = 256;

const MOST_FRAME_BYTES: u128 = 65_536;

/// The most bytes of all frames of a program.
pub const MOST_BYTES_OF_FRAMES: u64 = 1_048_576;

impl<'a> Reader<'a> {
    /// Counts a function.
    #[tactic(auto, unfolding(crate::specs::Grammar::one_function))]
    pub fn one_function(&mut self) -> Result<(), Departure<'a>>
        ensures { Reads one_function (λ x. x) result self.old self.new }
    {
        if 1 <= self.functions {
            self.functions -= 1;
            Ok(())
        } else {
            Err(Departure::Limit(Which::Functions, MOST_FUNCTIONS + 1))
        }
    }

    /// Counts a frame.
    #[tactic(auto, unfolding(crate::specs::Grammar::one_frame))]
    pub fn one_frame(&mut self) -> Result<(), Departure<'a>>
        ensures { Reads one_frame (λ x. x) result self.old self.new }
    {
        if 1 <= self.frames {
            self.frames -= 1;
            Ok(())
        } else {
            Err(Departure::Limit(Which::Frames, MOST_FRAMES + 1))
        }
    }

    #[tactic(auto, unfolding(crate::specs::Grammar::fits_frame))]
    fn fits_frame(&mut self, bytes: u128) -> Result<(), Departure<'a>>
        ensures exact { Reads (fits_frame bytes) (λ x. x) result self.old self.new }
        ensures within { OnOk result (bytes ≤ most_frame_bytes) }
    {
        if bytes <= MOST_FRAME_BYTES {
            Ok(())
        } else {
            Err(Departure::Limit(Which::FrameBytes, MOST_FRAME_BYTES as u64 + 1))
        }
    }

    #[tactic(auto, unfolding(crate::specs::Grammar::more_bytes))]
    fn more_bytes(&mut self, bytes: u64) -> Result<(), Departure<'a>>
        ensures { Reads (more_bytes bytes) (λ x. x) result self.old self.new }
    {
        if bytes <= self.bytes {
            self.bytes -= bytes;
            Ok(())
        } else {
            Err(Departure::Limit(Which::AllBytes, MOST_BYTES_OF_FRAMES + 1))
        }
    }

    /// The size of a frame in bits.
    #[tactic(auto, unfolding(crate::specs::Grammar::bits))]
    pub fn bits(&mut self) -> Result<u32, Departure<'a>>
        ensures { Reads bits (λ x. x) result self.old self.new }
    {
        let bits = self.between(1, u128::MAX, 8)?;
        self.fits_frame(bits / 8)?;
        self.more_bytes((bits / 8) as u64)?;
        Ok(bits as u32)
    }
}
