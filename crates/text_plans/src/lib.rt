//! The parts that a text takes the fewest bits as in a QR code: segments of the four modes and ECI
//! designators, over all ways to write it that are read as the text (ISO/IEC 18004:2006, "Data
//! analysis", "Extended Channel Interpretation (ECI) mode").
#![tactic(auto)]

mod facts;
mod keep;
mod lanes;
mod least;
mod plan;
mod push;
mod row;
mod rules;
mod table;
mod together;
mod walk;

pub use least::least_plan;
pub use plan::{PlanPart, TextPlan};
pub use rules::Manner;
pub use together::least_plan_in;
