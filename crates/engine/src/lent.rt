// What the host lends to one event: the words of a venue, and a buffer for the reports of the event.
ghost use Rattle.std.specs.Prelude.{◌≡◌};
ghost use Rattle.engine.specs.steps.Memory.{Ordered};

use book::BookView;

// The words, the buffer, and how many of its bytes are written. Between two steps of an event the words are a book whose ids rise.
// The words themselves, and no value of book over them: what is behind a slice in a struct in a struct isn't known where the loan ends (`apply_sound`, `returns`).
#[derive(Drop)]
pub(crate) struct LentVenue<'a> {
    pub(crate) words: &'a mut [u32],
    pub(crate) buffer: &'a mut [u8],
    pub(crate) end: usize,
    ghost ordered: { Ordered words.now },
}

impl<'a> LentVenue<'a> {
    // Nothing is reported yet.
    pub(crate) fn new(words: &'a mut [u32], buffer: &'a mut [u8]) -> LentVenue<'a>
        requires { Ordered words.old }
        ensures same_words { result.words.ghost_name ≡ words.entry.ghost_name }
        ensures same_buffer { result.buffer.ghost_name ≡ buffer.entry.ghost_name }
        ensures words { result.words.now ≡ words.old }
        ensures buffer { result.buffer.now ≡ buffer.old }
        ensures none { result.end ≡ 0 }
    {
        LentVenue {
            words,
            buffer,
            end: 0,
        }
    }

    // The book, to be read.
    pub(crate) fn view(&self) -> BookView<'_>
        ensures { result.words.now ≡ self.now.words.now }
    {
        BookView::new(self.words)
    }

    // The number of bytes that are written.
    pub(crate) fn byte_count(&self) -> usize
        ensures { result ≡ self.now.end }
    {
        self.end
    }
}
