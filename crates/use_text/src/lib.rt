// A page that text is put on: words and numbers in decimal. Each text stands behind what stood there; what does not fit is cut off.
#![tactic(auto)]

ghost use Rattle.std.specs.Prelude.{[], ◌∷◌, ◌++◌, ◌≡◌, take};
ghost use Rattle.model_report.specs.Report.{decimal, newline};
ghost use Rattle.use_text.specs.Page.{Put, page, blank_page};
ghost use Rattle.use_text.specs.Numbers.{with_fields};

// How many bytes a page has: the longest report fits (`use_report_laws`).
pub const SIZE: usize = 5120;

// A page: its bytes, the first `len` of which are its text.
// Kept: a length beside its bytes, since clauses say what stands behind the text (`use_report_text::report`: zeros), and this library takes no
// heap. Texts are bytes and no `&str`, since `Put` speaks of bytes.
#[derive(Clone, Copy)]
pub struct Page {
    pub bytes: [u8; SIZE],
    pub len: usize,
}

impl Page {
    // A page with no text, of zeros.
    pub fn blank() -> Self
        ensures { result ≡ blank_page }
    {
        Page {
            bytes: [0; SIZE],
            len: 0,
        }
    }

    // Takes the text off: the next stands from the page's start on. The bytes stay.
    pub fn clear(&mut self)
        ensures { self.new ≡ page self.old.bytes 0 }
    {
        self.len = 0;
    }

    // The text: the first `len` bytes, or all where there are fewer.
    pub fn text(&self) -> &[u8]
        ensures { result.now ≡ take self.now.len self.now.bytes }
    {
        self.bytes.get(..self.len).unwrap_or(&self.bytes)
    }

    // One byte.
    #[tactic(auto, unfolding(crate::specs::Page::put_byte, crate::specs::Page::put_all))]
    fn put_byte(&mut self, b: u8)
        ensures { Put self.old (b ∷ []) self.new }
    {
        if self.len < SIZE {
            self.bytes[self.len] = b;
            self.len += 1;
        }
    }

    // Words.
    #[tactic(auto, using(crate::specs::Page::nothing))]
    pub fn put_words(&mut self, words: &[u8])
        ensures { Put self.old words.now self.new }
    {
        for b in words {
            self.put_byte(*b);
        }
    }

    // A number in decimal: its last digit behind the others.
    // Kept: digits by hand and no `write!`, since `Put` says what stands where the page is full: what does not fit is cut off.
    fn put_number(&mut self, v: usize)
        ensures { Put self.old (decimal v) self.new }
    {
        if v >= 10 {
            self.put_number(v / 10);
        }
        self.put_byte(48 + (v % 10) as u8);
    }

    // Words and numbers, a space before each number.
    pub fn put_fields(&mut self, words: &[u8], fields: &[usize])
        ensures { Put self.old (with_fields words.now fields.now) self.new }
    {
        self.put_words(words);
        for v in fields {
            self.put_byte(b' ');
            self.put_number(*v);
        }
    }

    // Words and numbers on a line of their own.
    pub fn put_line(&mut self, words: &[u8], fields: &[usize])
        ensures { Put self.old (with_fields words.now fields.now ++ newline) self.new }
    {
        self.put_fields(words, fields);
        self.put_byte(b'\n');
    }
}
