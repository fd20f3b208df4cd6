//! Plans: how a text is written.

ghost use Rattle.std.specs.Prelude.{◌≡◌, ◌++◌, ◌∷◌, [], All, length, None, Some, OnOk, IfOk};
ghost use Rattle.character_sets.specs.Reading.{designator};
ghost use Rattle.text_plans.specs.Plan.{Plan, LiesWithin, Written, all_parts, plan_parts};

use qrcode_base::types::Mode;
use std::alloc::{AllocError, Global};
use std::marker::Model;

/// A part of a plan.
#[derive(Clone, Copy, Debug, PartialEq, Eq)]
pub enum PlanPart {
    /// An ECI designator: 3 to 11, 13, 15, 17, 18, 20 or 26.
    Designator(u32),
    /// A segment in a mode: the bytes of the plan from `begin` up to, not including, `end`. In the
    /// Kanji mode each character is two bytes of Shift JIS.
    Segment {
        mode: Mode,
        begin: usize,
        end: usize,
    },
}

/// How a text is written: its parts, and the bytes of its segments.
#[derive(Debug, Drop)]
pub struct TextPlan {
    bytes: Vec<u8>,
    parts: Vec<PlanPart>,
}

impl Model for TextPlan {
    ghost use Rattle.std.specs.Prelude.{All, length};
    ghost use Rattle.text_plans.specs.Plan.{Plan, LiesWithin};

    ghost Value = { Plan };

    ghost view = { λ p. record { bytes = p.bytes.items; parts = p.parts.items } };

    ghost invariant = { λ p. All (LiesWithin (length p.bytes.items)) p.parts.items };
}

impl TextPlan {
    /// Returns the bytes of all segments, one after the other.
    pub fn bytes(&self) -> &[u8]
        ensures { result.now ≡ self.now.bytes }
    {
        self.bytes.as_slice()
    }

    /// Returns the parts. Each segment lies within the bytes.
    pub fn parts(&self) -> &[PlanPart]
        ensures parts { result.now ≡ self.now.parts }
        ensures inside { All (LiesWithin (length self.now.bytes)) result.now }
    {
        self.parts.as_slice()
    }
}

/// A plan that is being written.
#[derive(Drop)]
pub struct Draft {
    bytes: Vec<u8>,
    parts: Vec<PlanPart>,
    mode: Option<Mode>,
    begin: usize,
}

impl Model for Draft {
    ghost use Rattle.std.specs.Prelude.{◌≤◌, All, length, drop, map};
    ghost use Rattle.text_plans.specs.Plan.{LiesWithin, Written, part_of};

    ghost Value = { Written };

    ghost view = { λ d. record {
      parts = map (part_of d.bytes.items) d.parts.items;
      mode = d.mode;
      bytes = drop d.begin d.bytes.items;
    } };

    ghost invariant = { λ d. (d.begin ≤ length d.bytes.items)
        × All (LiesWithin d.begin) d.parts.items };
}

impl Draft {
    /// Returns a plan with no part, and room for a number of bytes.
    pub fn with_capacity(alloc: Global, bytes: usize) -> Result<Self, AllocError>
        ensures parts { IfOk result (λ draft. draft.parts ≡ []) }
        ensures mode { IfOk result (λ draft. draft.mode ≡ None) }
        ensures bytes { IfOk result (λ draft. draft.bytes ≡ []) }
    {
        let bytes = Vec::with_capacity(alloc, bytes)?;
        Ok(Draft {
            bytes,
            parts: Vec::new(alloc),
            mode: None,
            begin: 0,
        })
    }

    /// Returns the mode of the open segment, if there is one.
    pub fn mode(&self) -> Option<Mode>
        ensures { result ≡ self.now.mode }
    {
        self.mode
    }

    /// Returns the number of bytes of the open segment.
    pub fn count(&self) -> usize
        ensures { result ≡ length self.now.bytes }
    {
        self.bytes.len() - self.begin
    }

    /// Appends bytes to the open segment.
    pub fn push(&mut self, bytes: &[u8]) -> Result<(), AllocError>
        ensures { OnOk result (self.new ≡ record self.old { bytes = self.old.bytes ++ bytes.now }) }
    {
        self.bytes.extend_from_slice(bytes)?;
        Ok(())
    }

    /// Closes the open segment, if there is one.
    pub fn close(&mut self) -> Result<(), AllocError>
        ensures parts { OnOk result (self.new.parts ≡ all_parts self.old) }
        ensures mode { OnOk result (self.new.mode ≡ None) }
        ensures bytes { OnOk result (self.old.mode ≡ None → self.new.bytes ≡ self.old.bytes) }
        ensures closed { OnOk result
            ((mode : Mode) → self.old.mode ≡ Some mode → self.new.bytes ≡ []) }
    {
        if let Some(mode) = self.mode {
            let (begin, end) = (self.begin, self.bytes.len());
            self.parts.push(PlanPart::Segment { mode, begin, end })?;
            self.begin = end;
            self.mode = None;
        }
        Ok(())
    }

    /// Appends a designator.
    pub fn designate(&mut self, number: u32) -> Result<(), AllocError>
        ensures { OnOk result
            (self.new ≡ record self.old { parts = self.old.parts ++ designator number ∷ [] }) }
    {
        self.parts.push(PlanPart::Designator(number))?;
        Ok(())
    }

    /// Opens a segment.
    pub fn begin_segment(&mut self, mode: Mode)
        ensures { self.new ≡ record self.old { mode = Some mode } }
    {
        self.mode = Some(mode);
    }

    /// Returns the plan of the complete parts.
    pub fn finish(self) -> TextPlan
        ensures { plan_parts result ≡ self.parts }
    {
        TextPlan {
            bytes: self.bytes,
            parts: self.parts,
        }
    }
}
