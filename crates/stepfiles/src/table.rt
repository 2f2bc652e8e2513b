//! The table of a file whose header is right, and where its rows stand.
ghost use Rattle.std.specs.Prelude.{◌≡◌, ◌+◌, ◌*◌, ◌<◌, length};
ghost use Rattle.stepfiles.specs.Layout.{byte_at, word_at, row_at, target_at, Laid};

use alphabets::Kind;

/// The bytes before the text.
pub(crate) const HEADER: usize = 11;

/// The most rows that a file can have, so the longest scratch that opening one can ask for.
pub const MOST_ROWS: usize = 1024;

/// The bytes of a file whose header is right, and what the header says.
#[derive(Clone, Copy)]
pub(crate) struct Table<'a> {
    pub bytes: &'a [u8],
    pub kind: Kind,
    pub rows: usize,
    pub classes: usize,
    /// The place of row 0.
    pub start: usize,
    ghost laid: { Laid bytes.now kind rows classes start },
}

impl Table<'_> {
    /// The place of a row, which begins with its mark.
    pub fn row_place(&self, row: usize) -> usize
        requires { row < self.now.rows }
        ensures value { result ≡ row_at self.now.bytes.now row }
        ensures inside { result + 2 * self.now.classes < length self.now.bytes.now }
    {
        self.start + row * (1 + 2 * self.classes)
    }

    /// The byte of a row's mark.
    pub fn mark(&self, row: usize) -> u8
        requires { row < self.now.rows }
        ensures { result ≡ byte_at self.now.bytes.now (row_at self.now.bytes.now row) }
    {
        self.bytes[self.row_place(row)]
    }

    /// The place of a row's target by a class.
    pub fn target_place(&self, row: usize, class: usize) -> usize
        requires row { row < self.now.rows }
        requires class { class < self.now.classes }
        ensures value { result ≡ target_at self.now.bytes.now row class }
        ensures inside { result + 1 < length self.now.bytes.now }
    {
        self.row_place(row) + 1 + 2 * class
    }

    /// The row to which a class leads from a row, as the bytes have it.
    pub fn target(&self, row: usize, class: usize) -> usize
        requires row { row < self.now.rows }
        requires class { class < self.now.classes }
        ensures { result ≡ word_at self.now.bytes.now (target_at self.now.bytes.now row class) }
    {
        let place = self.target_place(row, class);
        usize::from(u16::from_be_bytes([self.bytes[place], self.bytes[place + 1]]))
    }
}
