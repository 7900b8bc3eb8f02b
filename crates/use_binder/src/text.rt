// What is printed. Each part is put on a page (`use_text`) and written at once. The longest is a list of six entries, which fits.
// Kept: a page and no `println!`, which would write each of some 60,000 lines by itself.
use model::{Entry, Operation, Refusal};
use std::io::{self, Print};
use use_text::Page;

// A binder: where it is printed, and the page that each part is put on.
#[derive(Drop)]
pub(crate) struct Binder<'a, P> {
    rt: &'a P,
    page: Page,
}

impl<'a, P: Print> Binder<'a, P> {
    pub(crate) fn new(rt: &'a P) -> Self {
        Binder {
            rt,
            page: Page::blank(),
        }
    }

    // Writes what stands on the page, and takes it off. So do the methods below that print.
    fn write(&mut self) -> io::Result<()> {
        self.rt.write_all(self.page.text())?;
        self.page.clear();
        Ok(())
    }

    // Words, a number, and what it counts: one, or none or several.
    fn put_count(&mut self, words: &[u8], count: usize, one: &[u8], several: &[u8]) {
        self.page.put_fields(words, &[count]);
        self.page.put_words(if count == 1 { one } else { several });
    }

    // An entry on a line of its own. No list has a close, or one that is malformed.
    fn put_entry(&mut self, entry: Entry) {
        match entry {
            Entry::Acts(Operation::Propose(seat, value)) => {
                self.page.put_line(b"propose", &[seat, value as usize])
            }
            Entry::Acts(Operation::Step(seat, hint)) => {
                self.page.put_fields(b"work", &[seat]);
                self.page.put_words(if hint { b" yes\n" } else { b" no\n" });
            }
            Entry::Acts(Operation::Learn(seat)) => self.page.put_line(b"look", &[seat]),
            Entry::Acts(Operation::Crash(seat)) => self.page.put_line(b"crash", &[seat]),
            Entry::Closes | Entry::Malformed => {}
        }
    }

    // The lines above the lists.
    pub(crate) fn print_head(&mut self, n: usize, length: usize, limit: usize) -> io::Result<()> {
        self.put_count(b"# Every legal list of", length, b" entry", b" entries");
        self.put_count(b" for", n, b" seat", b" seats");
        self.page.put_words(b", in order.\n");
        self.page.put_line(b"n", &[n]);
        self.page.put_line(b"L", &[limit]);
        self.write()
    }

    // A list below its number.
    pub(crate) fn print_list(&mut self, number: usize, list: &[u8]) -> io::Result<()> {
        self.page.put_line(b"\n# list", &[number]);
        for bytes in list.chunks_exact(6) {
            let raw = part_raw_entry::raw_at(bytes, 0);
            self.put_entry(part_entry::entry_of(raw.kind, raw.process, raw.value));
        }
        self.write()
    }

    // The line below the lists.
    pub(crate) fn print_count(&mut self, count: usize) -> io::Result<()> {
        self.put_count(b"\n#", count, b" list\n", b" lists\n");
        self.write()
    }

    // The line that stands in their place.
    pub(crate) fn print_refused(&mut self, refusal: Refusal) -> io::Result<()> {
        self.page
            .put_line(b"lists refused", &[refusal.number() as usize]);
        self.write()
    }
}
