// The sample: a smile-shaped surface of 200 x 200 cells, run as a command would be, and written to grid.bmp.
#![tactic(auto)]

ghost use Rattle.std.specs.Prelude.{◌≡◌, ◌<◌, ◌≤◌, length};

use arguments::words::part;
use command::run::run;
use std::rt::Files;
use std::{fs, io, str};

const SIDE: usize = 200;

// Columns from column 110.
fn distance(x: usize) -> usize
    requires { x < 200 }
    ensures { result ≤ 110 }
{
    if x < 110 { 110 - x } else { x - 110 }
}

fn square(k: usize) -> usize
    requires { k ≤ 110 }
    ensures { result ≤ 12100 }
{
    k * k
}

fn ratio(a: usize, b: usize) -> usize
    requires { 0 < b }
    ensures { result ≤ a }
{
    a / b
}

// The surface's index at column x and row y: steep about column 110 in the first row, flatter and higher
// further down.
fn surface(x: usize, y: usize) -> u8
    requires x_bound { x < 200 }
    requires y_bound { y < 200 }
{
    let level = ratio(square(distance(x)) * 153, 121 * (60 + y)) + y / 4;
    level.min(255) as u8
}

// Puts the surface into a plane.
fn paint(plane: &mut [u8]) {
    for (i, cell) in plane.iter_mut().enumerate() {
        *cell = surface(i % SIDE, i / SIDE % SIDE);
    }
}

// Room for the file, and for the message.
fn large_buffer() -> [u8; 65536]
    ensures { 65536 ≡ length result }
{
    [0; 65536]
}

fn buffer() -> [u8; 4096]
    ensures { 4096 ≡ length result }
{
    [0; 4096]
}

// Writes a file, and says so where it cannot. A path is text.
fn save(rt: &(impl Files + Eprint), path: &[u8], bytes: &[u8]) -> io::Result<bool> {
    let Ok(name) = str::from_utf8(path) else {
        eprintln!(rt; "the path is no text")?;
        return Ok(false);
    };
    match fs::write(rt, name, bytes) {
        Ok(()) => Ok(true),
        Err(why) => {
            eprintln!(rt; "{name}: {why}")?;
            Ok(false)
        }
    }
}

fn encode(
    rt: &(impl Files + Print + Eprint),
    plane: &[u8],
    out: &mut [u8],
    text: &mut [u8],
) -> io::Result<()> {
    let words =
        b"--plane\0surface\0--width\0200\0--height\0200\0--sample-palette\0--out\0grid.bmp\0";
    let mut none = [0u8; 1];
    let answer = run(words, plane, b"", b"", b"", &mut none, out, text);
    if answer.status == 0 {
        if !save(rt, b"grid.bmp", part(out, 0, answer.bytes as usize))? {
            return Ok(());
        }
    }
    rt.write_all(part(text, 0, answer.text as usize))
}

fn encode_in(rt: &(impl Files + Print + Eprint), plane: &mut [u8; 40000]) -> io::Result<()> {
    paint(plane);
    let mut out = large_buffer();
    let mut text = buffer();
    encode(rt, plane, &mut out, &mut text)
}

fn main(rt: HostRuntime) -> io::Result<()> {
    let mut plane = [0u8; 40000];
    encode_in(&rt, &mut plane)
}
