// The loop over the sending of binary messages, alone, for `./harrowlink speed` (docs/SPEED.md).
#![tactic(auto)]

#[unsafe(no_mangle)]
pub extern "C" fn bench_binary(
    client: bool,
    payloads: &[u8],
    size: usize,
    mask: u32,
    output: &mut [u8],
) -> u64 {
    bench::sends::bench_binary_shared(client, payloads, size, mask, output)
}
