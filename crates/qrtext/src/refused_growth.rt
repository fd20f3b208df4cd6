//! Drawing while allocations fail: see `tools/refuse-growth`.

use crate::tests::HELLO;
use crate::{FromReader, FromWriter, TextError, draw};
use qrcode_core::types::{EcLevel, QrError, QrResult};

/// A failed allocation leaves the output unchanged. The text of 21 lines has 462 bytes.
#[test]
fn draw_of_hello(rt: HostRuntime) -> QrResult<()> {
    let mut page = [b'?'; 462];
    let mut room = page.as_mut_slice();
    let mut bytes: &[u8] = b"hello";
    let mut reader = FromReader::new(&mut bytes);
    let mut writer = FromWriter::new(&mut room);
    let outcome = draw(rt.alloc(), &mut reader, &mut writer, EcLevel::L, false);
    if outcome == Err(TextError::Symbol(QrError::OutOfMemory)) {
        assert!(rt; page.iter().all(|byte| *byte == b'?'));
        return Err(QrError::OutOfMemory);
    }
    assert_eq!(rt; outcome, Ok(()));
    assert_eq!(rt; &page[..], HELLO.as_bytes());
    Ok(())
}
