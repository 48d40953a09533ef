// The listing of a capture.
use capture::step::Came;

// Lists a capture into a store, which is filled again from its front whenever it is full, as `replay` hands its lines over. Gives the bytes of
// the listing. All bytes of the capture are there, so a step that lacks some would be the last.
// Kept: the loop counts its steps, up to a number that no capture uses up, since a proved loop has to end and nothing here says that the
// steps do.
pub fn bench_list(bytes: &[u8], out: &mut [u8]) -> u64 {
    let mut message = [0u8; 32768];
    let mut control = [0u8; 125];
    let mut output = [0u8; 131];
    let mut replay = capture::step::begin();
    let mut rest = bytes;
    let mut at: usize = 0;
    let mut listed: u64 = 0;
    for _ in 0..u64::MAX {
        let stepped = capture::step::step(
            replay,
            rest,
            true,
            &mut message,
            &mut control,
            &mut output,
            out,
            at,
        );
        replay = stepped.replay;
        rest = &rest[stepped.used.min(rest.len())..];
        match stepped.came {
            Came::Line(n) => {
                at = at.wrapping_add(n);
                listed = listed.wrapping_add(n as u64);
            }
            Came::Last(n) => {
                listed = listed.wrapping_add(n as u64);
                break;
            }
            Came::Full if 0 < at => at = 0,
            Came::Full | Came::Lacking => break,
        }
    }
    listed
}
