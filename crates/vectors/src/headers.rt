// Opcodes and frame headers.
use crate::told;
use crate::told::Store;
use coding::opcode::{Control, Data, OpCode};
use frame::header::FrameHeader;
use script::answers::Text;

// The word of a class.
fn class(opcode: OpCode) -> &'static [u8] {
    match opcode {
        OpCode::Data(Data::Continue) => b"continue",
        OpCode::Data(Data::Text) => b"text",
        OpCode::Data(Data::Binary) => b"binary",
        OpCode::Control(Control::Close) => b"close",
        OpCode::Control(Control::Ping) => b"ping",
        OpCode::Control(Control::Pong) => b"pong",
        OpCode::Reserved(_) => b"reserved",
    }
}

pub(crate) fn opcode(args: &[u8], text: &mut Text<'_>) {
    let opcode = OpCode::from(script::words::byte(args, 0));
    told::word(class(opcode), text);
    text.number(u64::from(u8::from(opcode)));
}

// A header that is whole; zeros stand for the mask that it may lack.
fn whole(header: FrameHeader, mask: Option<[u8; 4]>, text: &mut Text<'_>) {
    for flag in [header.fin, header.rsv1, header.rsv2, header.rsv3] {
        text.number(u64::from(flag));
    }
    told::word(class(header.opcode), text);
    text.number(u64::from(header.masked));
    text.number(header.length);
    text.hex(&mask.unwrap_or([0; 4]));
}

pub(crate) fn read(args: &[u8], text: &mut Text<'_>) {
    match frame::header::parse(args) {
        None => told::word(b"lacking", text),
        Some(header) => whole(header, frame::header::mask_of(args), text),
    }
}

// A header by its flags byte, its opcode byte and its length.
fn header_of(flags: u8, opcode: u8, length: u64) -> FrameHeader {
    FrameHeader {
        fin: flags & 1 != 0,
        rsv1: flags & 2 != 0,
        rsv2: flags & 4 != 0,
        rsv3: flags & 8 != 0,
        opcode: OpCode::from(opcode),
        masked: flags & 16 != 0,
        length,
    }
}

// Lays the header over a store and tells where it ends. The test on its size stands in for a proof that none has more than 27 bytes.
fn formatted(header: FrameHeader, mask: [u8; 4], store: &mut Store, text: &mut Text<'_>) {
    let size = frame::header::header_size(header.masked, header.length);
    if size <= 27 {
        let behind = frame::header::format(header, mask, store, 5);
        text.number(size as u64);
        text.number(behind as u64);
        text.hex(&store[..32]);
    } else {
        told::refused(text);
    }
}

pub(crate) fn write(args: &[u8], store: &mut Store, text: &mut Text<'_>) {
    let header = header_of(
        script::words::byte(args, 0),
        script::words::byte(args, 1),
        crate::args::big(script::words::behind(args, 6)),
    );
    formatted(
        header,
        crate::args::mask(script::words::behind(args, 2)),
        store,
        text,
    )
}
