// The contents of a book: a line of six bytes for each entry.
ghost use Rattle.std.specs.Prelude.{◌≡◌, ◌+◌, ◌*◌, ◌<◌, ◌≤◌, length};
ghost use Rattle.book.specs.Contents.{line_at, KindOf};

// What an entry holds.
#[derive(Clone, Copy, Debug, PartialEq, Eq)]
pub enum Kind {
    // A body to write.
    Body,
    // A block to read: bytes, or on the line 0, 1, and 2 for absent.
    Block,
    // Soft readings of a block on the line, a signed byte each.
    Soft,
    // Samples of a block on the line, 16 bits each.
    Samples,
}

// A number that no kind has.
#[derive(Clone, Copy, Debug, PartialEq, Eq)]
pub struct UnknownKind(pub u8);

// The kind with this number.
impl TryFrom<u8> for Kind {
    type Error = UnknownKind;

    ghost try_from_gives = { KindOf };

    fn try_from(number: u8) -> Result<Self, UnknownKind> {
        match number {
            0 => Ok(Kind::Body),
            1 => Ok(Kind::Block),
            2 => Ok(Kind::Soft),
            3 => Ok(Kind::Samples),
            _ => Err(UnknownKind(number)),
        }
    }
}

// An entry as the contents say it; nothing is known of it until it is judged.
#[derive(Clone, Copy, Debug, Default, PartialEq, Eq)]
pub struct EntryLine {
    // The number of the plan.
    pub plan: u8,
    // The kind by its number.
    pub kind: u8,
    // Where the entry begins in the file.
    pub start: usize,
    // How many bytes it has.
    pub length: usize,
}

// Two bytes, the high one first.
fn word(high: u8, low: u8) -> usize
    ensures value { result ≡ 256 * high + low }
    ensures short { result < 65536 }
{
    usize::from(u16::from_be_bytes([high, low]))
}

// Line e, from 0, of the contents.
pub fn read_line(file: &[u8], e: usize) -> EntryLine
    requires { 2 + 6 * e + 6 ≤ length file.now }
    ensures value { result ≡ line_at file.now e }
    ensures short { result.length < 65536 }
{
    let at = 2 + 6 * e;
    EntryLine {
        plan: file[at],
        kind: file[at + 1],
        start: word(file[at + 2], file[at + 3]),
        length: word(file[at + 4], file[at + 5]),
    }
}
