// Numbers and masks in the argument of a record, which has the bytes that they are made of; of any other argument they are 0.

// The first eight bytes as a number, most significant first.
pub(crate) fn big(bytes: &[u8]) -> u64 {
    u64::from_be_bytes(bytes.first_chunk().copied().unwrap_or([0; 8]))
}

// The first two.
pub(crate) fn code(bytes: &[u8]) -> u16 {
    u16::from_be_bytes(bytes.first_chunk().copied().unwrap_or([0; 2]))
}

// The first four bytes.
pub(crate) fn mask(bytes: &[u8]) -> [u8; 4] {
    bytes.first_chunk().copied().unwrap_or([0; 4])
}
