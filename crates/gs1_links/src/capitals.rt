//! Domains with their hosts in capitals.
ghost use Rattle.std.specs.Prelude.{◌≡◌, IfOk};
ghost use Rattle.gs1_links.specs.Capitals.{capital, is_in_host, written, capital_domain};

use std::alloc::{AllocError, Global};

/// Returns the capital of a small letter, and another byte as it is.
fn capital(byte: u8) -> u8
    ensures { result ≡ capital byte }
{
    match byte {
        b'a'..=b'z' => byte - 0x20,
        _ => byte,
    }
}

/// Whether a byte stands in the host, which ends at the first slash.
fn is_in_host(was: bool, byte: u8) -> bool
    ensures { result ≡ is_in_host was byte }
{
    was && byte != b'/'
}

/// Returns a byte as it is written: in the host as a capital.
fn written(in_host: bool, byte: u8) -> u8
    ensures { result ≡ written in_host byte }
{
    if in_host { capital(byte) } else { byte }
}

/// Returns a domain with the letters of its host as capitals.
pub(crate) fn capital_domain(alloc: Global, domain: &[u8]) -> Result<Vec<u8>, AllocError>
    ensures { IfOk result (λ capitals. capitals.items ≡ capital_domain domain.now) }
{
    let mut capitals = Vec::new(alloc);
    let mut in_host = true;
    for byte in domain {
        in_host = is_in_host(in_host, *byte);
        capitals.push(written(in_host, *byte))?;
    }
    Ok(capitals)
}
