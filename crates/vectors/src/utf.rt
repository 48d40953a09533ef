// The UTF-8 check.
use script::answers::Text;

pub(crate) fn scan(args: &[u8], text: &mut Text<'_>) {
    let scanned = utf8::scan(script::words::byte(args, 0), script::words::behind(args, 1));
    text.number(scanned.at as u64);
    text.number(u64::from(scanned.progress));
    text.number(u64::from(utf8::is_whole(scanned.progress)));
    text.number(u64::from(utf8::is_beginning(scanned.progress)));
}

pub(crate) fn step(args: &[u8], text: &mut Text<'_>) {
    let progress = utf8::step(script::words::byte(args, 0), script::words::byte(args, 1));
    text.number(u64::from(progress));
}
