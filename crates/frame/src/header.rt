// A frame's header (the Rust's FrameHeader), read and written whole.
ghost use Rattle.std.specs.Prelude.{◌≡◌, ◌+◌, ◌≤◌, length};
ghost use Rattle.base.specs.Stores.{laid};
ghost use Rattle.base.specs.Table.{pick};
ghost use Rattle.frame.specs.Header.{size_by, missing, parsed, mask_given, header_size, header_bytes, first_byte, second_byte, flags, length_code};

use crate::length;
use coding::opcode::OpCode;

// What a header says, but for the bytes of its mask, which are read where payload is unmasked: `mask_of`. Kept: `masked` is a flag, and the
// mask stands beside the header, since `header_bytes` and the laws `header-read_back` and `mask_read_back` take them so.
#[derive(Clone, Copy)]
pub struct FrameHeader {
    pub fin: bool,
    pub rsv1: bool,
    pub rsv2: bool,
    pub rsv3: bool,
    pub opcode: OpCode,
    pub masked: bool,
    pub length: u64,
}

// The header's size, by its second byte.
pub fn size_by(second: u8) -> usize
    ensures { (result ≡ size_by second) × (result ≤ 14) }
{
    let size = 2 + length::extra_bytes(second & 0x7f);
    if second & 0x80 != 0 { size + 4 } else { size }
}

// How many more bytes finish the header that the bytes begin with, at least: none where it is whole.
pub fn missing(bytes: &[u8]) -> usize
    ensures { result ≡ missing bytes.now }
{
    match bytes {
        [_, second, ..] => size_by(*second).saturating_sub(bytes.len()),
        _ => 2 - bytes.len(),
    }
}

// Reads the header that the bytes begin with, where it is whole; those behind it are not looked at.
#[inline(always)]
#[tactic(auto, using(crate::proofs::Headers::whole_length))]
pub fn parse(bytes: &[u8]) -> Option<FrameHeader>
    ensures { result ≡ parsed bytes.now }
{
    if missing(bytes) != 0 {
        return None;
    }
    let (first, second) = (bytes[0], bytes[1]);
    Some(FrameHeader {
        fin: first & 0x80 != 0,
        rsv1: first & 0x40 != 0,
        rsv2: first & 0x20 != 0,
        rsv3: first & 0x10 != 0,
        opcode: OpCode::from(first),
        masked: second & 0x80 != 0,
        length: length::length_of(second & 0x7f, bytes),
    })
}

// The mask of a whole header that has one.
#[tactic(auto, using(crate::proofs::Headers::mask_rules))]
pub fn mask_of(bytes: &[u8]) -> Option<[u8; 4]>
    ensures { result ≡ mask_given bytes.now }
{
    if missing(bytes) != 0 || bytes[1] & 0x80 == 0 {
        return None;
    }
    let at = size_by(bytes[1]) - 4;
    Some([bytes[at], bytes[at + 1], bytes[at + 2], bytes[at + 3]])
}

// The size of the header that `format` writes.
pub fn header_size(masked: bool, length: u64) -> usize
    ensures { result ≡ header_size masked length }
{
    let plain = 2 + length::extra_bytes(length::length_code(length));
    if masked { plain + 4 } else { plain }
}

// The bit where it is set, else nothing.
fn flag(set: bool, bit: u8) -> u8
    ensures { result ≡ pick set bit 0 }
{
    if set { bit } else { 0 }
}

impl FrameHeader {
    fn first_byte(self) -> u8
        ensures { result ≡ first_byte (flags self) }
    {
        u8::from(self.opcode) & 0x0f
            | flag(self.fin, 0x80)
            | flag(self.rsv1, 0x40)
            | flag(self.rsv2, 0x20)
            | flag(self.rsv3, 0x10)
    }

    fn second_byte(self) -> u8
        ensures { result ≡ second_byte (record { masked = self.masked; code = length_code self.length }) }
    {
        length::length_code(self.length) & 0x7f | flag(self.masked, 0x80)
    }
}

// Lays the header over the store from place `at` on, and gives the place behind it. The mask is written where the header says so.
pub fn format(header: FrameHeader, mask: [u8; 4], store: &mut [u8], at: usize) -> usize
    requires { at + header_size header.masked header.length ≤ length store.old }
    ensures { (result ≡ at + header_size header.masked header.length) × (store.new ≡ laid store.old at (header_bytes header mask)) }
{
    store[at] = header.first_byte();
    store[at + 1] = header.second_byte();
    let behind = length::write_length(header.length, store, at + 2);
    if header.masked {
        stores::copy(&mask, store, behind);
        return behind + 4;
    }
    behind
}
