//! Lanes: what is in force for bytes.

ghost use Rattle.std.specs.Prelude.{◌≡◌, ◌<◌};
ghost use Rattle.text_plans.specs.Lanes.{force_of};

/// Returns the designator of a lane: that of lane 1 to 15, and `None` in the lanes 0 and 16.
#[tactic(auto, unfolding(crate::specs::Lanes::force_of))]
pub fn designator_of(lane: usize) -> Option<u32>
    requires { lane < 17 }
    ensures { result ≡ force_of lane }
{
    match lane {
        1..=9 => Some(lane as u32 + 2),
        10 => Some(13),
        11 => Some(15),
        12 | 13 => Some(lane as u32 + 5),
        14 => Some(20),
        15 => Some(26),
        _ => None,
    }
}
