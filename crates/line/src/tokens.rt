// Marks, words and numbers, as parts of the text.

// What stands between words and numbers, a byte each.
#[derive(Clone, Copy, PartialEq, Eq, Debug)]
pub(crate) enum Mark {
    Open,
    Close,
    Space,
    Feed,
}

#[derive(Clone, Copy, PartialEq, Eq, Debug)]
pub(crate) enum Token<'a> {
    Mark(Mark),
    Word(&'a [u8]),
    Number(&'a [u8]),
}

// A token carries its place, so that a fault is told where the token begins; the reader has the place too.
#[derive(Clone, Copy, PartialEq, Eq, Debug)]
pub(crate) struct Placed<'a> {
    pub(crate) token: Token<'a>,
    pub(crate) at: usize,
}
