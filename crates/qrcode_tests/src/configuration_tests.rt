//! Tests of the configurations of renderers and encoders, and of copies of encoded output.
use qrcode_core::plugin::{EncodeConfig, EncodedOutput, RenderConfig};
use std::alloc::Global;
use std::process::Abort;

#[test]
fn configurations_keep_what_is_asked(rt: HostRuntime) {
    let render = RenderConfig::new(rt.alloc()).with_format("svg");
    let render = render.expect(&rt, "memory").with_option("dark", "X");
    let copy = render
        .expect(&rt, "memory")
        .clone(rt.alloc())
        .expect(&rt, "memory");
    assert!(rt; copy.format() == Some("svg") && copy.option("dark") == Some("X"));
    encoding_keeps_what_is_asked(&rt, rt.alloc());
    encoded_bytes_are_copied(&rt, rt.alloc());
}

/// A copy of an encoder's configuration has its options.
fn encoding_keeps_what_is_asked(rt: &impl Abort, alloc: Global) {
    let encode = EncodeConfig::new(alloc).with_option("dark", "X");
    let copy = encode
        .expect(rt, "memory")
        .clone(alloc)
        .expect(rt, "memory");
    assert!(rt; copy.option("dark") == Some("X") && copy.option("light").is_none());
}

/// A copy of encoded output is equal to it.
fn encoded_bytes_are_copied(rt: &impl Abort, alloc: Global) {
    let bytes = EncodedOutput::Bytes(Vec::from_slice(alloc, b"abc").expect(rt, "memory"));
    assert!(rt; bytes.clone(alloc).expect(rt, "memory") == bytes);
}
