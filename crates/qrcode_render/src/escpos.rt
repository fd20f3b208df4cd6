//! Pictures as raster images of ESC/POS, for ticket printers.
ghost use Rattle.std.specs.Prelude.{◌≡◌, ◌*◌, ◌<◌, ◌≤◌, ◌++◌, IfOk, OnOk};
ghost use Rattle.std.specs.Option.{ForSome};
ghost use Rattle.picture_settings.specs.declared.bounds.TheConstants.{BAND_ROWS, MAX_FEED};
ghost use Rattle.grid_pictures.specs.Pictures.{pixel_height};
ghost use Rattle.grid_pictures.specs.Picture.{shown};
ghost use Rattle.qrcode_render.specs.EscPos.{band, escpos_text, two_bytes};
ghost use Rattle.qrcode_render.specs.EscPos.{cut_command, feed_command, ticket_text};

use grid_pictures::bitmap::push_rows_from;
use grid_pictures::picture::Picture;
use picture_settings::bounds::BAND_ROWS;
use std::alloc::{AllocError, Global};

/// The most bytes of the commands after a picture.
const AROUND: usize = 7;

/// Returns the picture as raster images of ESC/POS (`GS v 0`), for a ticket printer: bands of at
/// most `BAND_ROWS` rows of pixels, one below the other. It fails only for lack of memory.
#[tactic(auto, using(crate::proofs::BandLemmas::bands))]
pub fn escpos(alloc: Global, picture: &Picture) -> Result<Vec<u8>, AllocError>
    ensures { IfOk result (λ bytes. bytes.items ≡ escpos_text (shown picture.now)) }
{
    let height = picture.height();
    let bands = height.div_ceil(BAND_ROWS);
    let room = 8 * bands + picture.row_length() * height + AROUND;
    let mut bytes = Vec::with_capacity(alloc, room)?;
    for n in 0..bands {
        push_band(alloc, &mut bytes, picture, n)?;
    }
    Ok(bytes)
}

/// Returns the picture as `escpos` does, and then the commands that move the paper by this
/// many lines (`ESC d`), and that cut it (`GS V`), if they are asked for. It fails only for
/// lack of memory.
pub fn ticket(
    alloc: Global,
    picture: &Picture,
    feed: Option<usize>,
    cut: bool,
) -> Result<Vec<u8>, AllocError>
    requires { ForSome feed (λ n. n ≤ MAX_FEED) }
    ensures { IfOk result (λ bytes. bytes.items ≡ ticket_text feed cut (shown picture.now)) }
{
    let mut bytes = escpos(alloc, picture)?;
    push_feed(&mut bytes, feed)?;
    push_cut(&mut bytes, cut)?;
    Ok(bytes)
}

/// Appends the command that moves the paper, if it is asked for.
fn push_feed(bytes: &mut Vec<u8>, feed: Option<usize>) -> Result<(), AllocError>
    requires { ForSome feed (λ n. n ≤ MAX_FEED) }
    ensures { OnOk result (bytes.new.items ≡ bytes.old.items ++ feed_command feed) }
{
    match feed {
        Some(lines) => bytes.extend_from_slice(&[0x1B, b'd', lines as u8]),
        None => Ok(()),
    }
}

/// Appends the command that cuts the paper, if it is asked for.
fn push_cut(bytes: &mut Vec<u8>, cut: bool) -> Result<(), AllocError>
    ensures { OnOk result (bytes.new.items ≡ bytes.old.items ++ cut_command cut) }
{
    if cut {
        bytes.extend_from_slice(b"\x1DVB\0")
    } else {
        Ok(())
    }
}

/// Appends band n.
#[tactic(auto, unfolding(crate::specs::EscPos::raster))]
fn push_band(
    alloc: Global,
    bytes: &mut Vec<u8>,
    picture: &Picture,
    n: usize,
) -> Result<(), AllocError>
    requires { n * BAND_ROWS < pixel_height (shown picture.now) }
    ensures { OnOk result (bytes.new.items ≡ bytes.old.items ++ band (shown picture.now) n) }
{
    let first = n * BAND_ROWS;
    let count = (picture.height() - first).min(BAND_ROWS);
    bytes.extend_from_slice(b"\x1Dv0\0")?;
    push_two_bytes(bytes, picture.row_length())?;
    push_two_bytes(bytes, count)?;
    push_rows_from(alloc, bytes, picture, first, count)
}

/// Appends a number in two bytes, the lower first.
fn push_two_bytes(bytes: &mut Vec<u8>, n: usize) -> Result<(), AllocError>
    requires { n < 65536 }
    ensures { OnOk result (bytes.new.items ≡ bytes.old.items ++ two_bytes n) }
{
    bytes.push((n % 256) as u8)?;
    bytes.push((n / 256) as u8)?;
    Ok(())
}
