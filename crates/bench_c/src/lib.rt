// All the loops of bench as one static library, which share the calls, for `./harrowlink speed` (docs/SPEED.md).
#![tactic(auto)]

#[unsafe(no_mangle)]
pub extern "C" fn bench_mask(piece: &[u8], store: &mut [u8], mask: u32) -> bool {
    bench::leaves::bench_mask(piece, store, mask)
}

#[unsafe(no_mangle)]
pub extern "C" fn bench_mask_bytes(piece: &[u8], store: &mut [u8], mask: u32) -> bool {
    bench::leaves::bench_mask_bytes(piece, store, mask)
}

#[unsafe(no_mangle)]
pub extern "C" fn bench_utf8(piece: &[u8]) -> bool {
    bench::leaves::bench_utf8(piece)
}

#[unsafe(no_mangle)]
pub extern "C" fn bench_read_shared(
    client: bool,
    stream: &[u8],
    size: usize,
    message: &mut [u8],
    control: &mut [u8],
    output: &mut [u8],
    events: &mut u64,
) -> u64 {
    bench::reads::bench_read_shared(client, stream, size, message, control, output, events)
}

#[unsafe(no_mangle)]
pub extern "C" fn bench_binary_shared(
    client: bool,
    payloads: &[u8],
    size: usize,
    mask: u32,
    output: &mut [u8],
) -> u64 {
    bench::sends::bench_binary_shared(client, payloads, size, mask, output)
}

#[unsafe(no_mangle)]
pub extern "C" fn bench_text(
    client: bool,
    payloads: &[u8],
    size: usize,
    mask: u32,
    output: &mut [u8],
) -> u64 {
    bench::sends::bench_text(client, payloads, size, mask, output)
}

#[unsafe(no_mangle)]
pub extern "C" fn bench_take(payload: &[u8], size: usize, output: &mut [u8]) -> u64 {
    bench::sends::bench_take(payload, size, output)
}

#[unsafe(no_mangle)]
pub extern "C" fn bench_list(bytes: &[u8], out: &mut [u8]) -> u64 {
    bench::listings::bench_list(bytes, out)
}
