// The loop over the read call, alone, for `./harrowlink speed` (docs/SPEED.md).
#![tactic(auto)]

#[unsafe(no_mangle)]
pub extern "C" fn bench_read(
    client: bool,
    stream: &[u8],
    size: usize,
    message: &mut [u8],
    control: &mut [u8],
    output: &mut [u8],
    events: &mut u64,
) -> u64 {
    bench::reads::bench_read_shared(client, stream, size, message, control, output, events)
}
