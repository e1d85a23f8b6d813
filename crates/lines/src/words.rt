// A line under way: words parted by one space, in fixed memory.
ghost use Rattle.std.specs.Prelude.{◌≡◌, ◌+◌, ◌<◌, ◌≤◌, ◌∷◌, [], ◌++◌, length};
ghost use Rattle.lines.specs.Said.{spaced};

use arrayvec::ArrayString;
use itoa::{Buffer, Integer};

#[derive(Drop)]
pub(crate) struct Line {
    text: ArrayString<160>,
    // The last byte is for the newline.
    ghost open: { length text.bytes < 160 },
}

impl Line {
    pub(crate) fn new(word: &str) -> Line
        requires { length word.now < 160 }
        ensures { result.text.bytes ≡ word.now }
    {
        let mut text = ArrayString::new();
        text.push_str(word);
        Line { text }
    }

    pub(crate) fn word(&mut self, word: &str)
        requires { length self.old.text.bytes + 1 + length word.now < 160 }
        ensures bytes { self.new.text.bytes ≡ self.old.text.bytes ++ spaced word.now }
        ensures len { length self.new.text.bytes ≡ length self.old.text.bytes + 1 + length word.now }
    {
        self.text.push(' ');
        self.text.push_str(word);
    }

    pub(crate) fn number<I: Integer>(&mut self, n: I)
        requires { length self.old.text.bytes + 1 + I.MAX_STR_LEN < 160 }
        ensures bytes { self.new.text.bytes ≡ self.old.text.bytes ++ spaced (I.text n) }
        ensures bound { length self.new.text.bytes ≤ length self.old.text.bytes + 1 + I.MAX_STR_LEN }
    {
        self.word(Buffer::new().format(n));
    }

    // The whole line, with its newline.
    pub(crate) fn ended(mut self) -> ArrayString<160>
        ensures { result.bytes ≡ self.text.bytes ++ 10 ∷ [] }
    {
        self.text.push('\n');
        self.text
    }
}
