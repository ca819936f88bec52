// Why a file is not read.
ghost use Rattle.std.specs.Prelude.{◌≡◌};
ghost use Rattle.reader.specs.Refusals.{number_of};

// Document 02, A.1, in the order in which they are tried.
#[derive(Clone, Copy, Debug, PartialEq, Eq)]
pub enum ReadRefusal {
    // The head is one that the writer never writes.
    NeverWritten = 17,
    // A byte of header, masks, table, rows or profile lies outside the file.
    OutsideFile = 18,
    // A lent buffer is too short.
    BufferTooShort = 15,
    // The stream steps over a row's end, ends too early or uses a delta code.
    StreamFails = 19,
}

impl ReadRefusal {
    // The document's number.
    pub fn number(self) -> u32
        ensures { result ≡ number_of self }
    {
        self as u32
    }
}
