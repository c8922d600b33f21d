// Writes into a lent buffer from its front. What finds no room is left out.
ghost use Rattle.std.specs.Prelude.{◌≡◌, [], ◌∷◌};
ghost use Rattle.decimal.specs.Digits.{decimal_of};
ghost use Rattle.decimal.specs.Page.{page_of};
ghost use Rattle.decimal.specs.Writing.{page_in, buffer_of, Wrote};

// The buffer, and how many of its bytes are used.
#[derive(Drop)]
pub struct Page<'a> {
    out: &'a mut [u8],
    used: usize,
}

impl<'a> Page<'a> {
    // A buffer of which no bytes are used yet.
    pub fn new(out: &'a mut [u8]) -> Page<'a>
        ensures buffer { buffer_of result ≡ out.entry.ghost_name }
        ensures page { page_in result ≡ page_of out.old 0 }
    {
        Page { out, used: 0 }
    }

    // How many bytes are used.
    pub fn used(&self) -> usize
        ensures { result ≡ (page_in self.now).used }
    {
        self.used
    }

    // One byte.
    pub fn put(&mut self, b: u8)
        ensures { Wrote self.old (b ∷ []) self.new }
    {
        if self.used < self.out.len() {
            self.out[self.used] = b;
            self.used += 1;
        }
    }

    // A word, or any other bytes.
    pub fn word(&mut self, text: &[u8])
        ensures { Wrote self.old text.now self.new }
    {
        for &b in text {
            self.put(b);
        }
    }

    // A number in decimal digits.
    pub fn number(&mut self, x: usize)
        ensures { Wrote self.old (decimal_of x) self.new }
    {
        if x < 10 {
            self.put(b'0' + x as u8);
            return;
        }
        self.number(x / 10);
        self.put(b'0' + (x % 10) as u8);
    }
}
