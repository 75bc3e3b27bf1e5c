// The words that calls begin with.
ghost use Rattle.std.specs.Prelude.{◌≡◌};
ghost use Rattle.script.specs.Words.{word_text, WordRead};

#[derive(Clone, Copy, PartialEq, Eq, Debug)]
pub(crate) enum Word {
    Enter,
    Alter,
    Strike,
    Settle,
    Reopen,
    Verdict,
    Row,
}

const WORDS: [Word; 7] = [
    Word::Enter,
    Word::Alter,
    Word::Strike,
    Word::Settle,
    Word::Reopen,
    Word::Verdict,
    Word::Row,
];

impl Word {
    // What it puts at the beginning of its line. A word without an argument takes the line feed with it.
    fn text(self) -> &'static [u8]
        ensures { result.now ≡ word_text self }
    {
        match self {
            Word::Enter => b"enter ",
            Word::Alter => b"alter ",
            Word::Strike => b"strike ",
            Word::Settle => b"settle\n",
            Word::Reopen => b"reopen\n",
            Word::Verdict => b"verdict ",
            Word::Row => b"row ",
        }
    }
}

// The word that begins the text, and what comes after it.
pub(crate) fn read_word(text: &[u8]) -> Option<(Word, &[u8])>
    ensures { WordRead text.now result }
{
    for word in WORDS {
        if let Some(rest) = text.strip_prefix(word.text()) {
            return Some((word, rest));
        }
    }
    None
}
