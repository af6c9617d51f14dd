// The words of a line, one after the other.
ghost use Rattle.std.specs.Prelude.{◌≡◌, length};
ghost use Rattle.std.specs.Iterator.{at_most};
ghost use Rattle.command.specs.Commands.{blank, NextWord};

use super::splits::{split, trim};
use std::marker::Model;

/// The words of a line that are still to be read; one or more spaces part them.
#[derive(Drop)]
pub struct Words<'a> {
    line: &'a [u8],
}

impl<'a> Model for Words<'a> {
    ghost use Rattle.std.specs.Prelude.{ℕ, List};

    ghost Value = { List ℕ };

    ghost view = { λ words. words.line.now };
}

impl<'a> Words<'a> {
    /// The words of a whole line.
    pub fn new(line: &'a [u8]) -> Words<'a>
        ensures { result ≡ line.now }
    {
        Words { line }
    }

    /// Whether no word is left.
    pub fn is_empty(&self) -> bool
        ensures { result ≡ blank self.now }
    {
        trim(self.line).is_empty()
    }
}

impl<'a> Iterator for Words<'a> {
    type Item = &'a [u8];

    ghost next_gives = { NextWord };

    ghost remaining = { λ words. at_most (length words) };

    fn next(&mut self) -> Option<&'a [u8]> {
        let line = trim(self.line);
        if line.is_empty() {
            return None;
        }
        let (word, rest) = split(line, b' ');
        self.line = rest;
        Some(word)
    }
}
