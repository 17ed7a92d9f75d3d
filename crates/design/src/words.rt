//! The words of a line, read one after another.
ghost use Rattle.std.specs.Prelude.{◌≡◌, ℕ, true, List, [], ◌∷◌, is_err, IfOk, Ok, Result, MatchOption, MatchResult, ◌≢◌};
ghost use Rattle.std.proofs.Math.Utf8.{encodes, scalars};
ghost use Rattle.std.specs.declared.num.ParseIntError.{ParseIntError};
ghost use Rattle.std.specs.Str.Iter.{split_whitespace_rest};
ghost use Rattle.std.specs.Str.{chars};
ghost use Rattle.design.specs.declared.fault.Expected.TheVariants as wanted;
ghost use Rattle.design.specs.declared.fault.What.TheVariants as told;
ghost use Rattle.design.specs.declared.fault.Fault.TheVariants.{Line};
ghost use Rattle.design.specs.Blames.{Blames};
ghost use Rattle.design.specs.Texts.{words, left, Numbered};

use crate::fault::{Expected, Fault, Odd, What};
use crate::number::{NumberFault, number};
use std::alloc::Global;
use std::num::ParseIntError;
use std::str::{FromStr, SplitWhitespace};

/// The words of a line that are still to be read.
#[derive(Drop)]
pub struct Words<'a> {
    line: usize,
    rest: SplitWhitespace<'a>,
    ghost spelled: { encodes (chars (split_whitespace_rest rest)) ≡ split_whitespace_rest rest },
    ghost valid: { scalars (chars (split_whitespace_rest rest)) ≡ true },
}

/// Numbers, and whether a `:` stands after them, which they may do without.
#[derive(Drop)]
pub struct Numbers<N> {
    pub values: Vec<N>,
    pub colon: bool,
}

/// Why a word that is no number in range does not fit.
fn odd_number(word: &str, fault: NumberFault) -> Odd {
    match (fault, word) {
        (NumberFault::OutOfRange, _) => Odd::OutOfRange,
        (NumberFault::NoNumber, ":" | ",") => Odd::OutOfPlace,
        (NumberFault::NoNumber, _) => Odd::NoNumber,
    }
}

impl<'a> Words<'a> {
    /// The words of `text`, which is line `line` of its design.
    pub fn new(line: usize, text: &'a str) -> Words<'a>
        ensures { (left result.rest ≡ words text.now) × (result.line ≡ line) }
    {
        let rest = text.split_whitespace();
        Words { line, rest }
    }

    /// The next word, if there is one.
    pub fn next_word(&mut self) -> Option<&'a str>
        ensures takes { MatchOption result ((left self.old.rest ≡ []) × (left self.new.rest ≡ [])) (λ w. left self.old.rest ≡ w.now ∷ left self.new.rest) }
        ensures line { self.new.line ≡ self.old.line }
    {
        self.rest.next()
    }

    /// A fault of this line.
    pub fn fault(&self, what: What<'a>, expected: Expected) -> Fault<'a>
        ensures { result ≡ Line self.now.line what.entry expected }
    {
        let line = self.line;
        Fault::Line {
            line,
            what,
            expected,
        }
    }

    /// The fault of a `:` where the line has to end.
    pub(crate) fn stray_colon(&self) -> Fault<'a>
        ensures { Blames self.now.line wanted.End result }
    {
        self.fault(What::Word(":", Odd::OutOfPlace), Expected::End)
    }

    /// The next word, which has to be there.
    pub fn word(&mut self, expected: Expected) -> Result<&'a str, Fault<'a>>
        ensures takes { MatchResult result (λ w. left self.old.rest ≡ w.now ∷ left self.new.rest) (λ f. (left self.old.rest ≡ []) × (f ≡ Line self.old.line told.End expected)) }
        ensures line { self.new.line ≡ self.old.line }
    {
        let word = self.next_word();
        word.ok_or(self.fault(What::End, expected))
    }

    /// The number that a word of this line writes.
    pub fn read<N: FromStr<Err = ParseIntError>>(
        &self,
        word: &'a str,
        expected: Expected,
    ) -> Result<N, Fault<'a>>
        ensures { (p : Result N ParseIntError) × N.from_str_gives word.now p × MatchResult result (λ n. p ≡ Ok n) (λ f. (is_err p ≡ true) × Blames self.now.line expected f) }
    {
        match number(word) {
            Ok(n) => Ok(n),
            Err(fault) => Err(self.fault(What::Word(word, odd_number(word, fault)), expected)),
        }
    }

    /// The next word, which has to be a number.
    pub fn number<N: FromStr<Err = ParseIntError>>(
        &mut self,
        expected: Expected,
    ) -> Result<N, Fault<'a>>
        ensures takes { IfOk result (λ n. (w : List ℕ) × (left self.old.rest ≡ w ∷ left self.new.rest) × N.from_str_gives w (Ok n)) }
        ensures line { self.new.line ≡ self.old.line }
    {
        let word = self.word(expected)?;
        self.read(word, expected)
    }

    /// The numbers up to a `:` or the end of the line.
    pub fn numbers<N: FromStr<Err = ParseIntError> + Drop>(
        &mut self,
        heap: Global,
        expected: Expected,
    ) -> Result<Numbers<N>, Fault<'a>>
        ensures takes { IfOk result (λ v. Numbered (λ w n. N.from_str_gives w (Ok n)) (left self.old.rest) v.values.items v.colon (left self.new.rest)) }
        ensures line { self.new.line ≡ self.old.line }
    {
        let mut values = Vec::new(heap);
        while let Some(word) = self.next_word() {
            if word == ":" {
                return Ok(Numbers {
                    values,
                    colon: true,
                });
            }
            let n = self.read(word, expected)?;
            values.push(n)?;
        }
        Ok(Numbers {
            values,
            colon: false,
        })
    }

    /// The end of the line, at which no word may be left.
    pub fn end(&mut self) -> Result<(), Fault<'a>>
        ensures { MatchResult result (λ _. left self.old.rest ≡ []) (λ f. (left self.old.rest ≢ []) × Blames self.old.line wanted.End f) }
    {
        match self.next_word() {
            Some(word) => Err(self.fault(What::Word(word, Odd::Extra), Expected::End)),
            None => Ok(()),
        }
    }
}
