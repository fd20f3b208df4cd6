//! Laws: facts about links. Each function has no body; its contract is the fact.
ghost use Rattle.gs1_links.specs.LinkFaults.{LinksAreReadBack, LinksAreReadOrRefused};
ghost use Rattle.gs1_links.specs.LinkReader.{LinksHaveOneReading};

pub use gs1_base::laws::have_one_text;

/// No link is read as two lists of elements.
pub fn have_one_reading()
    ensures { LinksHaveOneReading }
{}

/// A reader finds elements in the links without a fault, and in no others.
pub fn are_read_or_refused()
    ensures { LinksAreReadOrRefused }
{}

/// The link of a text is read as the elements of the text, in the order of the link, and as
/// no others.
pub fn are_read_back()
    ensures { LinksAreReadBack }
{}
