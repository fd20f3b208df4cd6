//! Pictures as portable bitmaps: the header, then the rows of pixels.
ghost use Rattle.std.specs.Prelude.{◌≡◌, IfOk};
ghost use Rattle.std.specs.String.{string_bytes};
ghost use Rattle.grid_pictures.specs.Bitmaps.{bitmap_of, header};
ghost use Rattle.grid_pictures.specs.Picture.{shown};

use grid_pictures::bitmap::push_rows;
use grid_pictures::picture::Picture;
use std::alloc::{AllocError, Global};

/// Returns the picture as a portable bitmap, in its binary form (`P4` of Netpbm). It fails only for
/// lack of memory.
pub fn pbm(alloc: Global, picture: &Picture) -> Result<Vec<u8>, AllocError>
    ensures { IfOk result (λ bytes. bytes.items ≡ bitmap_of (shown picture.now)) }
{
    let (width, height) = (picture.width(), picture.height());
    let header = header(alloc, width, height)?;
    let mut bytes = Vec::with_capacity(alloc, header.len() + height * width.div_ceil(8))?;
    bytes.extend_from_slice(header.as_bytes())?;
    push_rows(alloc, &mut bytes, picture)?;
    Ok(bytes)
}

/// Appends the header: `P4`, the width and the height.
#[tactic(auto, unfolding(grid_pictures::specs::Bitmaps::header))]
fn header(alloc: Global, width: usize, height: usize) -> Result<String, AllocError>
    ensures { IfOk result (λ text. string_bytes text ≡ header width height) }
{
    format!(in alloc; "P4\n{width} {height}\n")
}
