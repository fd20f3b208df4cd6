//! A law: a fact about pictures. The function has no body; its contract is the fact.
ghost use Rattle.grid_pictures.specs.PathLaws.{CoversDarkModules};

/// The rectangles of a picture's SVG cover exactly its dark modules, and each of these is
/// covered once.
pub fn rectangles_cover_dark_modules()
    ensures { CoversDarkModules }
{}
