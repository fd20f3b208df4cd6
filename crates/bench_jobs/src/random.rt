//! Numbers that look random, the same in each run.
ghost use Rattle.std.specs.Prelude.{◌<◌, ◌^◌, length};

use std::alloc::AllocError;

/// A linear congruential generator.
#[derive(Clone, Copy)]
pub struct Random {
    state: u64,
}

impl Random {
    /// Returns the generator of a seed and the number of a job.
    pub fn new(seed: u64, job: u64) -> Random {
        let state = seed.wrapping_mul(0x9e37_79b9_7f4a_7c15).wrapping_add(job);
        let mut random = Random { state };
        let _first = random.number();
        random
    }

    /// Returns the next number.
    pub fn number(&mut self) -> u64
        ensures { result < 2 ^ 31 }
    {
        self.state = self
            .state
            .wrapping_mul(6_364_136_223_846_793_005)
            .wrapping_add(1_442_695_040_888_963_407);
        self.state >> 33
    }

    /// Returns a number below an end.
    pub fn below(&mut self, end: usize) -> usize
        requires some { 0 < end }
        requires few { end < 2 ^ 31 }
        ensures { result < end }
    {
        (self.number() * end as u64 / 2_147_483_648) as usize
    }

    /// Appends bytes of a table.
    pub fn push(
        &mut self,
        bytes: &mut Vec<u8>,
        table: &[u8],
        count: usize,
    ) -> Result<(), AllocError>
        requires some { 0 < length table.now }
        requires few { length table.now < 2 ^ 31 }
    {
        for n in 0..count {
            bytes.push(table[self.below(table.len())])?;
        }
        Ok(())
    }

    /// Appends characters of a table.
    pub fn write(
        &mut self,
        text: &mut String,
        table: &[char],
        count: usize,
    ) -> Result<(), AllocError>
        requires some { 0 < length table.now }
        requires few { length table.now < 2 ^ 31 }
    {
        for n in 0..count {
            text.push(table[self.below(table.len())])?;
        }
        Ok(())
    }
}
