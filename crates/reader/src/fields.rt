// The fields of a file's head, of any bytes: one that lies past the end counts as zeros.
ghost use Rattle.std.specs.Prelude.{◌≡◌, cond, ◌^◌, ◌<◌, leb, get_or};
ghost use Rattle.format.specs.Readers.{fields_of, word_at, dword_at, top_first, shown_height, table_count};
ghost use Rattle.reader.specs.Fields.{fields_in};

// What a reading looks at in the first 54 bytes.
#[derive(Clone, Copy)]
pub struct HeadFields {
    pub offset: u32,
    pub header_size: u32,
    pub width: u32,
    // As its 32 bits.
    pub height: u32,
    pub depth: u16,
    pub compression: u32,
    pub colours: u32,
}

fn byte_at(file: &[u8], at: usize) -> u32
    ensures { (result ≡ get_or file.now at 0) × (result < 256) }
{
    if at < file.len() {
        return file[at] as u32;
    }
    0
}

pub(crate) fn word_at(file: &[u8], at: usize) -> u32
    requires { at < 1024 }
    ensures { (result ≡ word_at file.now at) × (result < 65536) }
{
    byte_at(file, at) + 256 * byte_at(file, at + 1)
}

pub(crate) fn dword_at(file: &[u8], at: usize) -> u32
    requires { at < 1000 }
    ensures { result ≡ dword_at file.now at }
{
    word_at(file, at) + 65536 * word_at(file, at + 2)
}

pub(crate) fn fields_of(file: &[u8]) -> HeadFields
    ensures { fields_in result ≡ fields_of file.now }
{
    HeadFields {
        offset: dword_at(file, 10),
        header_size: dword_at(file, 14),
        width: dword_at(file, 18),
        height: dword_at(file, 22),
        depth: word_at(file, 28) as u16,
        compression: dword_at(file, 30),
        colours: dword_at(file, 46),
    }
}

// 2^depth for the depths that have a colour table, and 0 for the others.
pub(crate) fn full_table(depth: u16) -> u32
    ensures { result ≡ cond (leb depth 8) (2 ^ depth) 0 }
{
    if depth > 8 {
        return 0;
    }
    1u32 << depth as u32
}

impl HeadFields {
    // A negative height means that the top row is stored first.
    pub(crate) fn top_first(self) -> bool
        ensures { result ≡ top_first (fields_in self) }
    {
        self.height >= 0x8000_0000
    }

    // The height's magnitude.
    pub(crate) fn shown_height(self) -> u32
        ensures { result ≡ shown_height (fields_in self) }
    {
        if self.height >= 0x8000_0000 {
            return 0xFFFF_FFFF - self.height + 1;
        }
        self.height
    }

    pub(crate) fn table_count(self) -> u32
        ensures { result ≡ table_count (fields_in self) }
    {
        if self.depth > 8 {
            return 0;
        }
        if self.colours == 0 {
            return full_table(self.depth);
        }
        self.colours
    }
}
