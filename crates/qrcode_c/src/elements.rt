//! The functions for C that take GS1 elements as people write them.
ghost use Rattle.std.specs.Prelude.{◌≡◌, ◌≢◌, length, None, true, false};
ghost use Rattle.qrcode_bits.specs.Frame.{front_of, no_front};
ghost use Rattle.qrcode_bits.specs.declared.bits.front.Content.TheVariants.{Elements};
ghost use Rattle.qrcode_c.specs.declared.refusal.Refusal.{Refusal};
ghost use Rattle.qrcode_c.specs.Buffers.{HoldsAsked};
ghost use Rattle.qrcode_c.specs.Linked.{link_fault, HasLink, IsLinkedRefusal, HoldsLink};
ghost use Rattle.qrcode_c.specs.Linked.{IsLinkTextRefusal, IsNoLinkRefusal, TellsLinkPlace};
ghost use Rattle.qrcode_c.specs.Refusals.{IsStatusOf};
ghost use Rattle.qrcode_c.specs.Statuses.{status_of};
ghost use Rattle.qrcode_c.specs.Written.{checked_refusal, IsWrittenRefusal, WritesElements};
ghost use Rattle.qrcode_c.specs.Written.{IsTableRefusal, TellsPlace};

use crate::DONE;
use crate::faults::ElementFault;
use crate::linked::{check_link, linked_symbol, write_link};
use crate::options::Options;
use crate::shape::Shape;
use crate::written::{check_written, written_symbol};
use std::alloc::Global;

/// Writes the symbol of GS1 elements that are written as people write them, such as
/// `(01)09506000134352(10)ABC123`, as `qrcode_c_elements` does, if the table of identifiers allows
/// each element (`checked_element_string` of `gs1`), and they stand together (`check_together`).
///
/// # Errors
///
/// As `qrcode_c_bytes` has them; but after the versions the text is tested, and the status is, in
/// this order: `InvalidText`; `NoElements`; and of the first element that has a fault the first of
/// `InvalidIdentifier`, `UnknownIdentifier`, and of its value `EmptyValue`, `WrongLength` (it ends
/// too early), `ValueTooLong`, `InvalidCharacter`, `WrongCheckDigit`, `WrongValue`; then
/// `DataTooLong` for a text of more than 11815 bytes, and of the first element that may not stand
/// beside the others `MissingElement` or `ConflictingElement`.
#[unsafe(no_mangle)]
pub extern "C" fn qrcode_c_gs1(
    alloc: Global,
    text: &[u8],
    options: &Options,
    modules: &mut [u8],
    shape: &mut Shape,
) -> i32
    ensures done { result ≡ DONE → WritesElements true text.now (λ elements.
        HoldsAsked (front_of None Elements) elements options.now modules.old modules.new
        shape.new) }
    ensures refusal { result ≢ DONE → IsStatusOf
        (IsWrittenRefusal true text.now options.now (length modules.old)) result }
    ensures unchanged { result ≢ DONE → (modules.new ≡ modules.old) × (shape.new ≡ shape.old) }
{
    match written_symbol(alloc, true, text, options, modules) {
        Ok(drawn) => {
            *shape = drawn;
            DONE
        }
        Err(refusal) => refusal.status(),
    }
}

/// Writes the symbol of GS1 elements as `qrcode_c_gs1` does, but tests them for what a reader needs
/// alone (`element_string` of `gs1`).
///
/// # Errors
///
/// As `qrcode_c_gs1` has them; but of the first element that has a fault the first of
/// `InvalidIdentifier`, `UnknownIdentifier`, `EmptyValue`, `ValueTooLong`, `InvalidCharacter`,
/// `WrongLength`, `WrongCheckDigit`.
#[unsafe(no_mangle)]
pub extern "C" fn qrcode_c_gs1_unchecked(
    alloc: Global,
    text: &[u8],
    options: &Options,
    modules: &mut [u8],
    shape: &mut Shape,
) -> i32
    ensures done { result ≡ DONE → WritesElements false text.now (λ elements.
        HoldsAsked (front_of None Elements) elements options.now modules.old modules.new
        shape.new) }
    ensures refusal { result ≢ DONE → IsStatusOf
        (IsWrittenRefusal false text.now options.now (length modules.old)) result }
    ensures unchanged { result ≢ DONE → (modules.new ≡ modules.old) × (shape.new ≡ shape.old) }
{
    match written_symbol(alloc, false, text, options, modules) {
        Ok(drawn) => {
            *shape = drawn;
            DONE
        }
        Err(refusal) => refusal.status(),
    }
}

/// Checks elements as `qrcode_c_gs1` does, and writes where the first fault is. Returns `DONE` if
/// there is none.
///
/// # Errors
///
/// `InvalidText`, and the statuses of a fault in the order of `qrcode_c_gs1`. Nothing is allocated.
#[unsafe(no_mangle)]
pub extern "C" fn qrcode_c_gs1_fault(text: &[u8], fault: &mut ElementFault) -> i32
    ensures done { result ≡ DONE → checked_refusal text.now ≡ None }
    ensures refusal { result ≢ DONE → IsStatusOf (IsTableRefusal text.now) result }
    ensures told { TellsPlace text.now fault.new }
{
    match check_written(text, fault) {
        Ok(()) => DONE,
        Err(refusal) => refusal.status(),
    }
}

/// Writes the symbol of the GS1 Digital Link of elements that are written as people write them, at
/// a domain, as `qrcode_c_bytes` does (`digital_link` of `gs1_links`).
///
/// # Errors
///
/// As `qrcode_c_bytes` has them; but after the versions the text is tested, and the status is, in
/// this order: `InvalidText`; `DataTooLong` if the text has more than 11815 bytes; those of
/// `qrcode_c_gs1` for a fault of the elements; `WrongDomain`; `NoKey`; and of the first element
/// that has a fault `WrongQualifier`, `SecondKey`, `RepeatedElement`.
#[unsafe(no_mangle)]
pub extern "C" fn qrcode_c_link(
    alloc: Global,
    text: &[u8],
    domain: &[u8],
    options: &Options,
    modules: &mut [u8],
    shape: &mut Shape,
) -> i32
    ensures done { result ≡ DONE → HasLink text.now domain.now (λ link.
        HoldsAsked no_front link options.now modules.old modules.new shape.new) }
    ensures refusal { result ≢ DONE → IsStatusOf
        (IsLinkedRefusal text.now domain.now options.now (length modules.old)) result }
    ensures unchanged { result ≢ DONE → (modules.new ≡ modules.old) × (shape.new ≡ shape.old) }
{
    match linked_symbol(alloc, text, domain, options, modules) {
        Ok(drawn) => {
            *shape = drawn;
            DONE
        }
        Err(refusal) => refusal.status(),
    }
}

/// Writes the link itself, and the number of its bytes. The bytes of `buffer` after the link keep
/// their values. Returns `DONE`.
///
/// # Errors
///
/// On an error nothing is written, except that a `ShortBuffer` writes the number of bytes that the
/// link has. The status is, in this order: those of `qrcode_c_link` for a fault of the text and the
/// domain; `OutOfMemory` where an allocation failed; `ShortBuffer`.
#[unsafe(no_mangle)]
pub extern "C" fn qrcode_c_link_text(
    alloc: Global,
    text: &[u8],
    domain: &[u8],
    buffer: &mut [u8],
    size: &mut usize,
) -> i32
    ensures done { result ≡ DONE →
        HoldsLink text.now domain.now buffer.old buffer.new size.new }
    ensures refusal { result ≢ DONE → IsStatusOf
        (IsLinkTextRefusal text.now domain.now (length buffer.old) size.new) result }
    ensures unchanged { result ≢ DONE → buffer.new ≡ buffer.old }
    ensures sized { result ≢ DONE → result ≢ status_of Refusal.ShortBuffer →
        size.new ≡ size.old }
{
    match write_link(alloc, text, domain, buffer, size) {
        Ok(()) => DONE,
        Err(refusal) => refusal.status(),
    }
}

/// Checks elements and a domain as `qrcode_c_link` does, and writes where the first fault is.
/// Returns `DONE` if there is none.
///
/// # Errors
///
/// `InvalidText`, and the statuses of a fault in the order of `qrcode_c_link`; `OutOfMemory` if
/// there is none and an allocation failed.
#[unsafe(no_mangle)]
pub extern "C" fn qrcode_c_link_fault(
    alloc: Global,
    text: &[u8],
    domain: &[u8],
    fault: &mut ElementFault,
) -> i32
    ensures done { result ≡ DONE → link_fault text.now domain.now ≡ None }
    ensures refusal { result ≢ DONE → IsStatusOf (IsNoLinkRefusal text.now domain.now) result }
    ensures told { TellsLinkPlace text.now domain.now fault.new }
{
    match check_link(alloc, text, domain, fault) {
        Ok(()) => DONE,
        Err(refusal) => refusal.status(),
    }
}
