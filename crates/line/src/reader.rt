// Reads what a line asks for, by its tokens.
ghost use Rattle.std.specs.Prelude.{◌≡◌, ◌<◌, [], ◌∷◌, ◌++◌, length, ◌≢◌, slice_index};
ghost use Rattle.std.specs.Str.Parse.{digits_value};
ghost use Rattle.line.specs.Names.{name_text};
ghost use Rattle.line.specs.Reader.{Skips, Gives, opening, amount, field, either};
ghost use Rattle.line.specs.Forms.{shared, number};
ghost use Rattle.line.specs.Tokens.{Letter, Digit, Numeral, WordStands, NumberStands, Found, byte_of};

use crate::line::LineFault;
use crate::names::Name;
use crate::tokens::{Mark, Placed, Token};

const MOST_DIGITS: usize = 10;

// How many bytes the two share at their beginnings.
fn shared_length(a: &[u8], b: &[u8]) -> usize
    ensures { result ≡ shared a.now b.now }
{
    a.iter().zip(b).take_while(|(x, y)| x == y).count()
}

// The number that the digits write.
#[tactic(auto, using(crate::proofs::Numbers::value_step))]
fn value_of(digits: &[u8]) -> u64
    requires { Numeral digits.now }
    ensures { result ≡ digits_value 10 digits.now }
{
    let mut n: u64 = 0;
    for digit in digits {
        n = n * 10 + u64::from(*digit - b'0');
    }
    n
}

// A text, and the place in it that is read next.
#[derive(Clone, Copy, Debug)]
pub(crate) struct Reader<'a> {
    pub(crate) text: &'a [u8],
    pub(crate) at: usize,
}

impl<'a> Reader<'a> {
    // The letters that stand here, all of them.
    fn letters(&self) -> &'a [u8]
        requires within { self.now.at < length self.now.text.now }
        requires first { Letter (slice_index self.now.text.now self.now.at) }
        ensures { WordStands self.now.text.now self.now.at result.now }
    {
        let rest = &self.text[self.at..];
        let letters = rest.iter().take_while(|byte| byte.is_ascii_lowercase());
        &rest[..letters.count()]
    }

    // The longest number that stands here. It is bounded and a word is not: one chain for both would take the test and the bound.
    fn digits(&self) -> &'a [u8]
        requires within { self.now.at < length self.now.text.now }
        requires first { Digit (slice_index self.now.text.now self.now.at) }
        ensures { NumberStands self.now.text.now self.now.at result.now }
    {
        let rest = &self.text[self.at..];
        let most = if rest[0] == b'0' { 1 } else { MOST_DIGITS };
        let digits = rest
            .iter()
            .take(most)
            .take_while(|byte| byte.is_ascii_digit());
        &rest[..digits.count()]
    }

    // The token that begins here.
    fn next_token(&self) -> Result<Placed<'a>, LineFault>
        ensures { Found self.now.text.now self.now.at result }
    {
        let at = self.at;
        let token = match self.text.get(at) {
            Some(b'(') => Token::Mark(Mark::Open),
            Some(b')') => Token::Mark(Mark::Close),
            Some(b' ') => Token::Mark(Mark::Space),
            Some(b'\n') => Token::Mark(Mark::Feed),
            Some(b'a'..=b'z') => Token::Word(self.letters()),
            Some(b'0'..=b'9') => Token::Number(self.digits()),
            _ => return Err(LineFault { at }),
        };
        Ok(Placed { token, at })
    }

    // The mark `wanted`.
    pub(crate) fn mark(&mut self, wanted: Mark) -> Result<(), LineFault>
        ensures { Skips (byte_of wanted ∷ []) self.old self.new result }
    {
        let found = self.next_token()?;
        if found.token != Token::Mark(wanted) {
            return Err(LineFault { at: found.at });
        }
        self.at += 1;
        Ok(())
    }

    // The word `name` and a space.
    fn word(&mut self, name: Name) -> Result<(), LineFault>
        ensures { Skips (name_text name ++ 32 ∷ []) self.old self.new result }
    {
        let word = name.text();
        let placed = self.next_token()?;
        let Token::Word(found) = placed.token else {
            return Err(LineFault { at: placed.at });
        };
        if found != word {
            let same = shared_length(word, found);
            return Err(LineFault { at: self.at + same });
        }
        self.at += word.len();
        self.mark(Mark::Space)
    }

    // A number and the mark `after`.
    pub(crate) fn number(&mut self, after: Mark) -> Result<u64, LineFault>
        ensures { Gives (number after) self.old self.new result }
    {
        let placed = self.next_token()?;
        let Token::Number(digits) = placed.token else {
            return Err(LineFault { at: placed.at });
        };
        self.at += digits.len();
        self.mark(after)?;
        Ok(value_of(digits))
    }

    // `NUMBER)` and the mark `after`.
    pub(crate) fn amount(&mut self, after: Mark) -> Result<u64, LineFault>
        ensures { Gives (amount after) self.old self.new result }
    {
        let n = self.number(Mark::Close)?;
        self.mark(after)?;
        Ok(n)
    }

    // `(NAME ` with the word `name`.
    pub(crate) fn opening(&mut self, name: Name) -> Result<(), LineFault>
        ensures { Skips (opening (name_text name)) self.old self.new result }
    {
        self.mark(Mark::Open)?;
        self.word(name)
    }

    // `(NAME NUMBER)` and the mark `after`.
    pub(crate) fn field(&mut self, name: Name, after: Mark) -> Result<u64, LineFault>
        ensures { Gives (field (name_text name) after) self.old self.new result }
    {
        self.opening(name)?;
        self.amount(after)
    }

    // `(NAME ` with the word of one of the two: what it stands for.
    pub(crate) fn either<C: Copy>(
        &mut self,
        first: (Name, C),
        second: (Name, C),
    ) -> Result<C, LineFault>
        requires { first.0 ≢ second.0 }
        ensures { Gives (either (name_text first.0, first.1) (name_text second.0, second.1)) self.old self.new result }
    {
        self.mark(Mark::Open)?;
        let inside = *self;
        let Err(one) = self.word(first.0) else {
            return Ok(first.1);
        };
        *self = inside;
        let Err(two) = self.word(second.0) else {
            return Ok(second.1);
        };
        Err(LineFault {
            at: one.at.max(two.at),
        })
    }
}
