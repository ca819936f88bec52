// What a text is cut into: a command's words, the items of a list.
ghost use Rattle.std.specs.Prelude.{◌≡◌, ◌+◌, ◌≤◌, ◌<◌, SomeIff, length, drop};
ghost use Rattle.arguments.specs.Words.{part_of, up_to, items_of, item_at, alike, byte_in, in_case, place_among};

// The bytes of a slice from one place to another; none where that is no part of it.
pub fn part<'a>(bytes: &'a [u8], from: usize, to: usize) -> &'a [u8]
    ensures { result.now ≡ part_of bytes.now from to }
{
    bytes.get(from..to).unwrap_or(b"")
}

// Where the piece of a text that starts at a place ends: at the mark behind it, or with the text.
pub fn end_of(text: &[u8], at: usize, mark: u8) -> usize
    requires { at ≤ length text.now }
    ensures { (result ≡ at + length (up_to mark (drop at text.now))) × (result ≤ length text.now) }
{
    match text[at..].iter().position(|byte| *byte == mark) {
        Some(n) => at + n,
        None => text.len(),
    }
}

// The piece of a text that starts at a place.
pub(crate) fn piece<'a>(text: &'a [u8], at: usize, mark: u8) -> &'a [u8]
    requires { at ≤ length text.now }
    ensures { result.now ≡ up_to mark (drop at text.now) }
{
    let to = end_of(text, at, mark);
    &text[at..to]
}

// A byte as it is, or a capital letter of ASCII as the small one.
fn byte_in(byte: u8, any_case: bool) -> u8
    ensures { result ≡ byte_in any_case byte }
{
    if any_case {
        byte.to_ascii_lowercase()
    } else {
        byte
    }
}

// Whether a name is a text, or in any case of its letters one of small letters.
fn same_in(text: &[u8], name: &[u8], any_case: bool) -> bool
    ensures { result ≡ alike text.now (in_case any_case name.now) }
{
    text.len() == name.len()
        && text
            .iter()
            .zip(name)
            .all(|(a, b)| *a == byte_in(*b, any_case))
}

// Item k of a list with a mark between its items; empty where there is none.
pub fn item<'a>(list: &'a [u8], k: usize, mark: u8) -> &'a [u8]
    ensures { result.now ≡ item_at (items_of mark list.now) k }
{
    list.split(|byte| *byte == mark).nth(k).unwrap_or(b"")
}

// How many items a list with a mark between its items has.
pub fn items(list: &[u8], mark: u8) -> usize
    ensures { (result ≡ length (items_of mark list.now)) × (result ≤ length list.now + 1) }
{
    list.split(|byte| *byte == mark).count()
}

// Which item of a list with commas a name is, from 0.
pub(crate) fn place_in(list: &[u8], name: &[u8], any_case: bool) -> Option<usize>
    ensures { let place = place_among (items_of 44 list.now) (in_case any_case name.now) in SomeIff result (place < length (items_of 44 list.now)) place }
{
    list.split(|byte| *byte == b',')
        .position(|item| same_in(item, name, any_case))
}
