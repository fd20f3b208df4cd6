//! Laws: facts about titles and colours. The function has no body; its contract is the fact.
ghost use Rattle.picture_settings.specs.Colors.{LightIsNearest};
ghost use Rattle.picture_settings.specs.PostScript.{StringsAreRead};
ghost use Rattle.picture_settings.specs.Xml.{TextsAreRead};

/// A reader of XML finds exactly the characters of a title, whatever the title, if XML allows them.
pub fn texts_are_read()
    ensures { TextsAreRead }
{}

/// A reader of PostScript finds exactly the bytes of a title of EPS, whatever the title.
pub fn strings_are_read()
    ensures { StringsAreRead }
{}

/// The light of each value of a channel, from which the contrast of two colours is computed, is the
/// nearest millionth.
pub fn light_is_nearest()
    ensures { LightIsNearest }
{}
