//! The options of a link: its domain, and whether its host is in capitals.
ghost use Rattle.std.specs.Prelude.{◌≡◌};
ghost use Rattle.label_words.specs.Values.{said};
ghost use Rattle.label_words.specs.CommandOutcomes.{outcome, text_outcome};
ghost use Rattle.label_words.specs.Commands.{domain_asked, upper_asked};

use crate::command::Content;
use crate::words::{Misuse, Name, Values};
use gs1_base::domain::is_domain;

/// The domain of a link for which the words give none, the resolver of GS1.
const DOMAIN: &str = "id.gs1.org";

/// Returns the domain of a link, which is a host name, or with a port or a path, or the default.
/// Other contents have none.
pub fn domain_of<'a>(values: &Values<'a>, content: Content) -> Result<&'a str, Misuse<'a>>
    ensures { text_outcome result ≡ domain_asked content (said values.now) }
{
    match values.get(Name::Domain) {
        Some(domain) if content == Content::Link && is_domain(domain.as_bytes()) => Ok(domain),
        Some(_) => Err(Misuse::Invalid(Name::Domain)),
        None => Ok(DOMAIN),
    }
}

/// Returns whether the scheme and the host of a link are in capitals.
pub fn upper_of<'a>(values: &Values<'a>, content: Content) -> Result<bool, Misuse<'a>>
    ensures { outcome result ≡ upper_asked content (said values.now) }
{
    if values.has(Name::Upper) && content != Content::Link {
        return Err(Misuse::Invalid(Name::Upper));
    }
    Ok(values.has(Name::Upper))
}
