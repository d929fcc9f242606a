// The lines of the report's text (document 01, "The specimen study"), each as bytes by value.
#![tactic(auto)]

ghost use Rattle.std.specs.Prelude.{◌≡◌, [], ◌++◌, length, drop};
ghost use Rattle.io.specs.Counts.{IsPrefixLen};
ghost use Rattle.numeric.specs.Choice.{pick, if_eq, if_le};
ghost use Rattle.terms.specs.Terms.{people};
ghost use Rattle.lines.specs.Text.{text_of, appended, decimal, grade_word, domino_word, study_line, kind_line, target_line, unjudged_line, refused_line};

use state::{TargetReport, Totals};
use terms::class;

// A line of text: the first len bytes of the array. An array and a length, not a String: the desk keeps nothing on a heap.
#[derive(Clone, Copy)]
pub struct Line {
    text: [u8; 256],
    len: usize,
}

impl Line {
    // A line without text.
    #[tactic(auto, unfolding(crate::specs::Text::text_of))]
    pub fn empty() -> Line
        ensures { text_of result ≡ [] }
    {
        Line {
            text: [0; 256],
            len: 0,
        }
    }

    // The line with a word behind it, if there is room.
    #[tactic(auto, using(crate::proofs::LineLaws::word_steps), unfolding(crate::specs::Text::text_of))]
    fn word(self, word: &[u8]) -> Line
        ensures { text_of result ≡ appended (text_of self) word.now }
    {
        let at = self.len.min(256);
        let n = word.len();
        if n <= 256 - at {
            let mut text = self.text;
            text[at..at + n].copy_from_slice(word);
            return Line { text, len: at + n };
        }
        self
    }

    // The line with a number behind it, if there is room.
    #[tactic(auto, using(crate::proofs::NumeralLaws::decimal_is))]
    fn number(self, n: u64) -> Line
        ensures { text_of result ≡ appended (text_of self) (decimal n) }
    {
        let mut digits = [0u8; 20];
        let k = io::decimal(n, &mut digits);
        self.word(&digits[..k])
    }

    // The text at the front of a lent list, and its length; nothing, and 0, where the list is shorter. The rest of the list stays.
    #[tactic(auto, using(crate::proofs::LineLaws::put_steps), unfolding(crate::specs::Text::text_of))]
    pub fn put(self, out: &mut [u8]) -> usize
        ensures value { result ≡ if_le (length (text_of self)) (length out.old) (length (text_of self)) 0 }
        ensures out_after { out.new ≡ if_le (length (text_of self)) (length out.old) (text_of self ++ drop (length (text_of self)) out.old) out.old }
        ensures prefix_len { IsPrefixLen result out.new }
    {
        let n = self.len.min(256);
        if n <= out.len() {
            out[..n].copy_from_slice(&self.text[..n]);
            return n;
        }
        0
    }

    // A word and a number.
    fn figure(self, word: &[u8], n: u64) -> Line
        ensures { text_of result ≡ appended (appended (text_of self) word.now) (decimal n) }
    {
        self.word(word).number(n)
    }

    // What stands after a target's margin.
    #[tactic(auto, using(crate::proofs::LineLaws::of_people, crate::proofs::LineLaws::of_equipment))]
    fn judged(self, r: TargetReport) -> Line
        ensures { text_of result ≡ if_eq r.class people (appended (appended (text_of self) grade_word) (decimal r.grade)) (pick r.listed (appended (text_of self) domino_word) (text_of self)) }
    {
        if r.class == class::PEOPLE {
            self.figure(b" grade ", r.grade as u64)
        } else if r.listed {
            self.word(b" domino")
        } else {
            self
        }
    }
}

// Below, each line from its parts, and no `Display`: docs/PROMISES.md names these functions, and each contract says the line's bytes.

// study S records R leaks F
#[tactic(auto, using(crate::proofs::LineLaws::line_steps), unfolding(crate::specs::Text::study_line))]
pub fn study_line(t: Totals) -> Line
    ensures { text_of result ≡ study_line t }
{
    Line::empty()
        .figure(b"study ", t.study as u64)
        .figure(b" records ", t.records as u64)
        .figure(b" leaks ", t.leaks)
        .word(b"\n")
}

// kind K V
#[tactic(auto, using(crate::proofs::LineLaws::line_steps), unfolding(crate::specs::Text::kind_line))]
pub fn kind_line(k: u8, v: u64) -> Line
    ensures { text_of result ≡ kind_line k v }
{
    Line::empty()
        .figure(b"kind ", k as u64)
        .figure(b" ", v)
        .word(b"\n")
}

// target T sum S margin M, then grade G of a place of people, or domino of listed equipment
#[tactic(auto, using(crate::proofs::LineLaws::line_steps), unfolding(crate::specs::Text::target_line))]
pub fn target_line(number: u16, r: TargetReport) -> Line
    ensures { text_of result ≡ target_line number r }
{
    Line::empty()
        .figure(b"target ", number as u64)
        .figure(b" sum ", r.sum)
        .figure(b" margin ", r.margin as u64)
        .judged(r)
        .word(b"\n")
}

// unjudged U
#[tactic(auto, using(crate::proofs::LineLaws::line_steps), unfolding(crate::specs::Text::unjudged_line))]
pub fn unjudged_line(u: u32) -> Line
    ensures { text_of result ≡ unjudged_line u }
{
    Line::empty().figure(b"unjudged ", u as u64).word(b"\n")
}

// refused N at P
#[tactic(auto, using(crate::proofs::LineLaws::line_steps), unfolding(crate::specs::Text::refused_line))]
pub fn refused_line(n: u8, p: u64) -> Line
    ensures { text_of result ≡ refused_line n p }
{
    Line::empty()
        .figure(b"refused ", n as u64)
        .figure(b" at ", p)
        .word(b"\n")
}
