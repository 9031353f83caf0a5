//! Lines of few words, put together from their ends.
ghost use Rattle.std.specs.Prelude.{◌≡◌, ◌+◌, ◌≤◌, [], ◌∷◌, ◌++◌, codes, decimal, length};

/// The bytes of a number after a space.
const NUMBER: usize = 21;

/// The most bytes of a line: a word of four letters, five numbers and the end byte.
const MOST_BYTES: usize = 4 + 5 * NUMBER + 1;

/// The end of a line, to which words are put in front. The digits of a number are found from the
/// last to the first, so a line that grows to the front has each byte written once.
#[derive(Drop)]
pub(crate) struct Ending {
    bytes: [u8; MOST_BYTES],
    start: usize,
    ghost within: { start ≤ 110 },
}

impl Ending {
    ghost use Rattle.link_scripts.specs.Answer.{moment_word};
    ghost use Rattle.link_scripts.specs.Ending.{ending_text};

    /// The end byte alone.
    pub(crate) fn new() -> Ending
        ensures text { ending_text result ≡ 10 ∷ [] }
        ensures room { result.start ≡ 109 }
    {
        Ending {
            bytes: [b'\n'; MOST_BYTES],
            start: MOST_BYTES - 1,
        }
    }

    /// Puts a number and a space before it in front.
    pub(crate) fn put_number(&mut self, number: u64)
        requires { 21 ≤ self.old.start }
        ensures text { ending_text self.new ≡ codes " " ++ decimal number ++ ending_text self.old }
        ensures room { self.old.start ≤ self.new.start + 21 }
    {
        self.put_digits(number);
        self.put_word(b" ");
    }

    /// Puts the digits of a number in front.
    fn put_digits(&mut self, number: u64)
        requires { 20 ≤ self.old.start }
        ensures text { ending_text self.new ≡ decimal number ++ ending_text self.old }
        ensures room { self.old.start ≤ self.new.start + 20 }
    {
        if number < 10 {
            self.start -= 1;
            self.bytes[self.start] = b'0' + number as u8;
            return;
        }
        self.start = itoa::write_digits(number, &mut self.bytes, self.start);
    }

    /// Puts a moment, or `-` where there is none, and a space before it in front.
    pub(crate) fn put_moment(&mut self, moment: Option<u64>)
        requires { 21 ≤ self.old.start }
        ensures text { ending_text self.new ≡ codes " " ++ moment_word moment ++ ending_text self.old }
        ensures room { self.old.start ≤ self.new.start + 21 }
    {
        match moment {
            Some(moment) => self.put_number(moment),
            None => self.put_word(b" -"),
        }
    }

    /// Puts these bytes in front.
    pub(crate) fn put_word(&mut self, word: &[u8])
        requires { length word.now ≤ self.old.start }
        ensures text { ending_text self.new ≡ word.now ++ ending_text self.old }
        ensures room { self.new.start + length word.now ≡ self.old.start }
    {
        let end = self.start;
        self.start -= word.len();
        self.bytes[self.start..end].copy_from_slice(word);
    }

    /// The line.
    pub(crate) fn as_slice(&self) -> &[u8]
        ensures { result.now ≡ ending_text self.now }
    {
        &self.bytes[self.start..]
    }
}
