// What is printed, and what things are called.
use arguments::words::item;
use leaves::encoder::written_names;
use std::io;

// Bytes in hexadecimal, each after a blank.
pub(crate) fn hex_bytes(rt: &impl Print, bytes: &[u8]) -> io::Result<()> {
    for byte in bytes {
        print!(rt; " {byte:02x}")?;
    }
    Ok(())
}

// Item n of a list with commas; the last one, at `last`, for every larger n.
fn listed(rt: &impl Print, names: &[u8], n: usize, last: usize) -> io::Result<()> {
    rt.write_all(item(names, n.min(last), b','))
}

pub(crate) fn source_name(rt: &impl Print, n: usize) -> io::Result<()> {
    listed(
        rt,
        b"Rgba,Rgb24,Bgra,Bgr24,Rgb555,Rgb565,Pal8,Indexed4,Indexed2,Indexed1",
        n,
        9,
    )
}

// What a file was written as, by number.
pub(crate) fn written_name(rt: &impl Print, n: usize) -> io::Result<()> {
    let names = written_names();
    listed(rt, &names, n, 11)
}

// The answers that are counted apart: 0 to 11 the formats, 12 to 15 stored rows where a stream was as long
// or longer, and from 16 on 16 more than a refusal's number.
pub(crate) fn answer_name(rt: &impl Print, n: usize) -> io::Result<()> {
    if n > 16 {
        let number = n - 16;
        return print!(rt; "refusal {number}");
    }
    match n {
        12 => print!(rt; "Indexed8, stream as long"),
        13 => print!(rt; "Indexed4, stream as long"),
        14 => print!(rt; "Indexed8, stream longer"),
        15 => print!(rt; "Indexed4, stream longer"),
        _ => written_name(rt, n),
    }
}
