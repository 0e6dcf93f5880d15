// A page on which output is gathered, so that many small pieces of text are one write. What is put on a page can't fail, which a `fmt::Result`
// would leave open: so functions put the texts, and no impl of `Display` does.
ghost use Rattle.std.specs.Prelude.{◌≡◌, ◌-◌, min, length, take, replicate, [], ◌∷◌};
ghost use Rattle.asking.specs.Digits.{decimal_text};
ghost use Rattle.asking.specs.Page.{page, shown, Put};

/// A lent buffer, of which so many bytes are used. A text goes behind those; what does not fit is cut at the buffer's end.
#[derive(Drop)]
pub struct Page<'a> {
    bytes: &'a mut [u8],
    used: usize,
}

impl<'a> Page<'a> {
    /// An empty page over a buffer.
    pub fn new(bytes: &'a mut [u8]) -> Page<'a>
        ensures empty { shown result ≡ page bytes.old 0 }
        ensures same_buffer { result.bytes.ghost_name ≡ bytes.entry.ghost_name }
    {
        Page::over(bytes, 0)
    }

    /// A page over a buffer of which so many bytes are used: what it holds stays, and a text goes behind it. A page with more used bytes than there are is
    /// full.
    pub fn over(bytes: &'a mut [u8], used: usize) -> Page<'a>
        ensures held { shown result ≡ page bytes.old used }
        ensures same_buffer { result.bytes.ghost_name ≡ bytes.entry.ghost_name }
    {
        Page { bytes, used }
    }

    /// What the page holds.
    pub fn text(&self) -> &[u8]
        ensures { result.now ≡ take self.now.used self.now.bytes.now }
    {
        &self.bytes[..self.used.min(self.bytes.len())]
    }

    /// Puts a byte, unless the page is full.
    #[tactic(auto, unfolding(crate::specs::Page::with_text))]
    pub fn put_byte(&mut self, byte: u8)
        ensures { Put self.old (byte ∷ []) self.new }
    {
        if self.used < self.bytes.len() {
            self.bytes[self.used] = byte;
            self.used += 1;
        }
    }

    // How many of so many bytes there is room for.
    fn fitting(&self, size: usize) -> usize
        ensures { result ≡ min size (length self.now.bytes.now - self.now.used) }
    {
        size.min(self.bytes.len().saturating_sub(self.used))
    }

    /// Puts the bytes of a text.
    // All at once, and not byte by byte: each byte would load the page's fields and store them.
    pub fn put(&mut self, text: &[u8])
        ensures { Put self.old text.now self.new }
    {
        let size = self.fitting(text.len());
        if 0 < size {
            self.bytes[self.used..self.used + size].copy_from_slice(&text[..size]);
            self.used += size;
        }
    }

    // Puts so many of one byte, all at once as well.
    pub(crate) fn put_times(&mut self, byte: u8, times: usize)
        ensures { Put self.old (replicate times byte) self.new }
    {
        let size = self.fitting(times);
        if 0 < size {
            self.bytes[self.used..self.used + size].fill(byte);
            self.used += size;
        }
    }

    /// Puts a number as a decimal.
    pub fn put_number(&mut self, number: usize)
        ensures { Put self.old (decimal_text number) self.new }
    {
        self.put(itoa::Buffer::new().format(number).as_bytes());
    }
}
