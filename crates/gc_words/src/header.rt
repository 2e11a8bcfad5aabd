ghost use Rattle.std.specs.Prelude.{◌≡◌, true, false, Some, IsSome};
ghost use Rattle.gc_words.specs.Word.{read_header, header_in, header_word};

/// The header of an object: its kind, its number of fields, and whether the object is raw, which means that its fields are
/// plain numbers.
#[derive(Clone, Copy, Debug, PartialEq, Eq)]
pub struct Header {
    raw: bool,
    kind: u8,
    len: u16,
}

/// The smallest header word: kind 0, no fields.
const FIRST: u64 = 16_777_216;

/// The smallest header word of a raw object.
const FIRST_RAW: u64 = 50_331_648;

/// The number of header words of raw objects, and also of other objects.
const HEADERS: u64 = 16_777_216;

/// The distance between the header words of two kinds: the number of lengths.
const LENGTHS: u64 = 65_536;

impl Header {
    pub fn new(kind: u8, len: u16) -> Header
        ensures { result ≡ record { raw = false; kind = kind; len = len } }
    {
        Header {
            raw: false,
            kind,
            len,
        }
    }

    /// Returns the header of a raw object.
    pub fn new_raw(kind: u8, len: u16) -> Header
        ensures { result ≡ record { raw = true; kind = kind; len = len } }
    {
        Header {
            raw: true,
            kind,
            len,
        }
    }

    /// Decodes a header word. Returns `None` for any other word.
    pub fn read(word: u64) -> Option<Header>
        ensures { result ≡ read_header word }
    {
        if (FIRST..FIRST + HEADERS).contains(&word) {
            Some(Header {
                raw: false,
                kind: ((word - FIRST) / LENGTHS) as u8,
                len: (word % LENGTHS) as u16,
            })
        } else if (FIRST_RAW..FIRST_RAW + HEADERS).contains(&word) {
            Some(Header {
                raw: true,
                kind: ((word - FIRST_RAW) / LENGTHS) as u8,
                len: (word % LENGTHS) as u16,
            })
        } else {
            None
        }
    }

    /// Decodes a word that is known to be a header word. It tests less than `read`.
    pub fn of_word(word: u64) -> Header
        requires { IsSome (read_header word) }
        ensures { read_header word ≡ Some result }
    {
        let raw = word >= FIRST_RAW;
        let first = if raw { FIRST_RAW } else { FIRST };
        Header {
            raw,
            kind: ((word - first) / LENGTHS) as u8,
            len: (word % LENGTHS) as u16,
        }
    }

    /// Decodes a header word. `raws` says whether headers of raw objects count.
    pub(crate) fn read_in(word: u64, raws: bool) -> Option<Header>
        ensures { result ≡ header_in raws word }
    {
        let header = Header::read(word)?;
        if header.raw && !raws {
            return None;
        }
        Some(header)
    }

    /// Encodes the header as a word, which `read` decodes again.
    pub fn word(self) -> u64
        ensures word { result ≡ header_word self }
        ensures read_back { read_header result ≡ Some self }
    {
        let first = if self.raw { FIRST_RAW } else { FIRST };
        first + LENGTHS * u64::from(self.kind) + u64::from(self.len)
    }

    /// Returns whether the fields are plain numbers.
    pub fn is_raw(self) -> bool
        ensures { result ≡ self.raw }
    {
        self.raw
    }

    pub fn kind(self) -> u8
        ensures { result ≡ self.kind }
    {
        self.kind
    }

    /// Returns the number of fields.
    pub fn len(self) -> u16
        ensures { result ≡ self.len }
    {
        self.len
    }
}
