//! The formats that a path is written for.

/// A format that a path is written for.
#[derive(Clone, Copy, Debug, PartialEq, Eq)]
pub enum Pen {
    /// Scalable Vector Graphics.
    Svg,
    /// Encapsulated PostScript.
    Eps,
    /// Portable Document Format.
    Pdf,
}
