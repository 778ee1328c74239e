// The words of a line, one after another.
ghost use Rattle.std.specs.Prelude.{◌≡◌, ℕ, List};
ghost use Rattle.std.specs.Iterator.{YieldsFirstRef, item_count};
ghost use Rattle.std.specs.Option.{option_map};
ghost use Rattle.line.specs.Words.{blank, letter, words};
ghost use Rattle.line.specs.Lines.{Next, Last};

use crate::word::Word;
use std::marker::Model;

fn is_blank(byte: u8) -> bool
    ensures { result ≡ blank byte }
{
    matches!(byte, b' ' | b'\t' | b'\r')
}

fn is_letter(byte: u8) -> bool
    ensures { result ≡ letter byte }
{
    !is_blank(byte) && byte != b'#'
}

// What is left of a line; contracts see the words in it.
#[derive(Drop)]
pub(crate) struct Words<'a> {
    rest: &'a str,
}

impl<'a> Model for Words<'a> {
    ghost Value = { List (List ℕ) };

    ghost view = { λ w. words w.rest.now };
}

impl<'a> Words<'a> {
    pub(crate) fn new(line: &'a str) -> Words<'a>
        ensures { result ≡ words line.now }
    {
        Words { rest: line }
    }

    // What the next word writes, none where it writes no such value or no word is left.
    pub(crate) fn read<T: Word>(&mut self) -> Option<T>
        ensures { Next T.writes self.old (option_map (λ x. (x, self.new)) result) }
    {
        T::of_word(self.next()?)
    }

    // The same of the last word, none where another follows.
    pub(crate) fn read_last<T: Word>(&mut self) -> Option<T>
        ensures { Last T.writes self.old result }
    {
        let value = self.read()?;
        self.next().is_none().then_some(value)
    }
}

impl<'a> Iterator for Words<'a> {
    type Item = &'a str;

    ghost next_gives = { YieldsFirstRef (λ ws. ws) };

    ghost remaining = { item_count (λ ws. ws) };

    fn next(&mut self) -> Option<&'a str> {
        let blanks = self
            .rest
            .as_bytes()
            .iter()
            .take_while(|byte| is_blank(**byte))
            .count();
        let (_, text) = self.rest.split_at(blanks);
        let letters = text
            .as_bytes()
            .iter()
            .take_while(|byte| is_letter(**byte))
            .count();
        let (word, rest) = text.split_at(letters);
        self.rest = rest;
        (!word.is_empty()).then_some(word)
    }
}
