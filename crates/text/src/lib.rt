// Text that is put together in lent memory. What has no room is left out; the place where a line goes on counts it none the less as far
// as the line's end.
#![tactic(auto)]

ghost use Rattle.std.specs.Prelude.{◌≡◌, [], ◌∷◌, ◌++◌};
ghost use Rattle.text.specs.Text.{decimal, spaced, counted, refused_word, unknown_word, Ended};
ghost use Rattle.text.specs.Text.{put as Text·put};

// A line that grows in lent memory: its next byte goes to place `to`.
#[derive(Drop)]
pub struct Line<'a> {
    pub bytes: &'a mut [u8],
    pub to: usize,
}

impl<'a> Line<'a> {
    // A line that begins with the memory.
    pub fn new(bytes: &'a mut [u8]) -> Line<'a>
        ensures same { result.bytes.ghost_name ≡ bytes.entry.ghost_name }
        ensures bytes { result.bytes.now ≡ bytes.old }
        ensures to { result.to ≡ 0 }
    {
        Line { bytes, to: 0 }
    }

    pub fn put_byte(&mut self, b: u8)
        ensures same { self.new.bytes.ghost_name ≡ self.old.bytes.ghost_name }
        ensures put { (self.new.to, self.new.bytes.now) ≡ Text·put self.old.to (b ∷ []) self.old.bytes.now }
    {
        if self.to < self.bytes.len() {
            self.bytes[self.to] = b;
            self.to += 1;
        }
    }

    // Most words have room, and are stored at once: of a word that the caller writes out, the compiler knows the length.
    pub fn put(&mut self, word: &[u8])
        ensures same { self.new.bytes.ghost_name ≡ self.old.bytes.ghost_name }
        ensures put { (self.new.to, self.new.bytes.now) ≡ Text·put self.old.to word.now self.old.bytes.now }
    {
        let from = self.to.min(self.bytes.len());
        let room = self.bytes.len() - from;
        if word.len() <= room {
            self.bytes[from..from + word.len()].copy_from_slice(word);
            self.to += word.len();
        } else {
            self.bytes[from..from + room].copy_from_slice(&word[..room]);
            self.to += room;
        }
    }

    // A number in decimal. Most have one digit.
    pub fn put_number(&mut self, n: u64)
        ensures same { self.new.bytes.ghost_name ≡ self.old.bytes.ghost_name }
        ensures put { (self.new.to, self.new.bytes.now) ≡ Text·put self.old.to (decimal n) self.old.bytes.now }
    {
        if n < 10 {
            self.put_byte(b'0' + n as u8);
        } else {
            let mut digits = [0u8; 20];
            let count = io::decimal(n, &mut digits);
            self.put(&digits[..count]);
        }
    }

    // A space and a number.
    pub fn put_next(&mut self, n: u64)
        ensures same { self.new.bytes.ghost_name ≡ self.old.bytes.ghost_name }
        ensures put { (self.new.to, self.new.bytes.now) ≡ Text·put self.old.to (spaced n) self.old.bytes.now }
    {
        self.put_byte(b' ');
        self.put_number(n);
    }

    // A word, a space, a number and the line's end. A caller writes the word out: with this body in the caller's it is stored at once.
    #[inline(always)]
    pub fn put_counted(&mut self, word: &[u8], n: u64)
        ensures same { self.new.bytes.ghost_name ≡ self.old.bytes.ghost_name }
        ensures put { (self.new.to, self.new.bytes.now) ≡ Text·put self.old.to (counted word.now n) self.old.bytes.now }
    {
        self.put(word);
        self.put_next(n);
        self.put_byte(b'\n');
    }

    // The number that a call refused with.
    pub fn put_refusal(&mut self, refusal: u8)
        ensures same { self.new.bytes.ghost_name ≡ self.old.bytes.ghost_name }
        ensures put { (self.new.to, self.new.bytes.now) ≡ Text·put self.old.to (refused_word ++ spaced refusal) self.old.bytes.now }
    {
        self.put(b" refused");
        self.put_next(refusal as u64);
    }

    // What is said of a record or a case whose kind a program does not know.
    pub fn put_unknown(&mut self, kind: u8)
        ensures same { self.new.bytes.ghost_name ≡ self.old.bytes.ghost_name }
        ensures put { (self.new.to, self.new.bytes.now) ≡ Text·put self.old.to (unknown_word ++ spaced kind) self.old.bytes.now }
    {
        self.put(b"unknown kind");
        self.put_next(kind as u64);
    }

    // Ends the line, and answers how many bytes it has.
    pub fn end(&mut self) -> usize
        ensures same { self.new.bytes.ghost_name ≡ self.old.bytes.ghost_name }
        ensures ended { Ended self.old.to self.old.bytes.now self.new.bytes.now result }
    {
        self.put(b"\n");
        self.to.min(self.bytes.len())
    }
}
