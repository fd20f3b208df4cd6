//! Laws: facts about percent-escapes. The function has no body; its contract is the fact.
ghost use Rattle.gs1_base.specs.Percent.{HaveOneText};

/// Bytes that are written with percent-escapes are read as the same bytes, and no text is read
/// as two.
pub fn have_one_text()
    ensures { HaveOneText }
{}
