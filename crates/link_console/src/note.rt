//! A line of text for people.
ghost use Rattle.std.specs.Prelude.{◌<◌, ◌≤◌, ℕ, All, length, slice_index};
ghost use Rattle.link_console.specs.Printable.{IsPrintable};

use itoa::Buffer;

/// The most bytes of a note.
const MOST_BYTES: usize = 400;

/// The most bytes that are shown of a word.
const MOST_SHOWN: usize = 40;

/// A line of text without its end byte: printable ASCII, of at most 400 bytes. What has no room any
/// more is left out.
#[derive(Drop)]
pub struct Note {
    bytes: [u8; MOST_BYTES],
    length: usize,
    ghost within: { length ≤ 400 },
    ghost printable: { (k : ℕ) → k < 400 → IsPrintable (slice_index bytes k) },
}

impl Note {
    ghost use Rattle.link_console.specs.Note.{HasText};

    /// Begins with a column.
    pub(crate) fn at(column: usize) -> Note
        ensures { HasText result }
    {
        let mut note = Note::new();
        note.put("column ");
        note.put_number(column);
        note.put(": ");
        note
    }

    /// No text.
    fn new() -> Note {
        Note {
            bytes: [b' '; MOST_BYTES],
            length: 0,
        }
    }

    /// The text.
    pub fn as_bytes(&self) -> &[u8]
        ensures printable { All IsPrintable result.now }
        ensures short { length result.now ≤ 400 }
        ensures some { HasText self.now → 0 < length result.now }
    {
        &self.bytes[..self.length]
    }

    /// Puts a text at the end.
    pub(crate) fn put(&mut self, text: &str)
        ensures grows { self.old.length ≤ self.new.length }
        ensures some { 0 < length text.now → HasText self.new }
    {
        for byte in text.as_bytes() {
            self.push(*byte);
        }
    }

    /// Puts a number at the end.
    pub(crate) fn put_number(&mut self, number: usize)
        ensures { self.old.length ≤ self.new.length }
    {
        let mut buffer = Buffer::new();
        self.put(buffer.format(number));
    }

    /// Puts a word between backquotes at the end. Bytes that are not printable are escaped, and of a
    /// long word only its beginning is shown.
    pub(crate) fn put_word(&mut self, word: &[u8])
        ensures { self.old.length ≤ self.new.length }
    {
        self.put("`");
        if word.len() > MOST_SHOWN {
            let (shown, _) = word.split_at(MOST_SHOWN);
            self.put_escaped(shown);
            self.put("..");
        } else {
            self.put_escaped(word);
        }
        self.put("`");
    }

    /// Puts bytes at the end, escaped where they are not printable.
    fn put_escaped(&mut self, bytes: &[u8])
        ensures { self.old.length ≤ self.new.length }
    {
        for byte in bytes {
            for part in byte.escape_ascii() {
                self.push(part);
            }
        }
    }

    /// Puts a byte at the end, where there is room; `?` stands for one that is not printable.
    fn push(&mut self, byte: u8)
        ensures grows { self.old.length ≤ self.new.length }
        ensures some { HasText self.new }
    {
        if self.length >= MOST_BYTES {
            return;
        }
        let is_printable = b' ' <= byte && byte <= b'~';
        self.bytes[self.length] = if is_printable { byte } else { b'?' };
        self.length += 1;
    }
}
