//! What element strings (`gs1`) and links (`gs1_links`) share: where bytes are cut (`cuts`),
//! characters (`characters`), percent-escapes (`percent`) and domains (`domain`). The table of
//! identifiers is not among it.
#![tactic(auto)]

pub mod characters;
pub mod cuts;
pub mod domain;
pub mod laws;
pub mod percent;
