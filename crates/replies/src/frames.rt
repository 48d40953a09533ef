// A frame put into the output store, header and payload.
ghost use Rattle.std.specs.Prelude.{◌≡◌, ◌++◌, ◌+◌, ◌≤◌, leb, length};
ghost use Rattle.base.specs.Stores.{laid};
ghost use Rattle.frame.specs.Header.{header_size};
ghost use Rattle.session.specs.Replies.{frame_header, encoded};

use coding::opcode::OpCode;
use frame::header::FrameHeader;

#[tactic(auto, unfolding(session::specs::Replies::frame_header))]
fn frame_header(client: bool, opcode: OpCode, length: usize) -> FrameHeader
    ensures { result ≡ frame_header client opcode length }
{
    FrameHeader {
        fin: true,
        rsv1: false,
        rsv2: false,
        rsv3: false,
        opcode,
        masked: client,
        length: length as u64,
    }
}

// Whether a frame whose payload is `count` bytes and then `length` fits into so much room: none does whose payload is longer than a number
// can say.
pub fn fits_in(client: bool, count: usize, length: usize, room: usize) -> bool
    ensures { result ≡ leb (header_size client (count + length) + (count + length)) room }
{
    match count.checked_add(length) {
        Some(total) => {
            total <= room && frame::header::header_size(client, total as u64) <= room - total
        }
        None => false,
    }
}

// A whole frame from place `at` on; its payload is `lead`, where a close has its code, and then the piece. Gives the place behind it. Kept: the
// mask beside the role, and not where there is one alone: a call has masks whatever its role (document 01).
#[tactic(auto, unfolding(session::specs::Replies::frame_header))]
pub fn put_frame(
    client: bool,
    opcode: OpCode,
    mask: [u8; 4],
    lead: &[u8],
    piece: &[u8],
    output: &mut [u8],
    at: usize,
) -> usize
    requires { at + (header_size client (length lead.now + length piece.now) + (length lead.now + length piece.now)) ≤ length output.old }
    ensures { (result ≡ at + length (encoded client opcode mask (lead.now ++ piece.now))) × (output.new ≡ laid output.old at (encoded client opcode mask (lead.now ++ piece.now))) }
{
    let size = lead.len() + piece.len();
    let behind = frame::header::format(frame_header(client, opcode, size), mask, output, at);
    let key = client.then_some(mask);
    stores::put(key, 0, lead, output, behind);
    stores::put(key, lead.len(), piece, output, behind + lead.len());
    behind + size
}
