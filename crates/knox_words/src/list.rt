//! Lists of words, which contracts see as lists, and whether words have given widths.
ghost use Rattle.std.specs.Prelude.{◌≡◌, ◌<◌, ◌≤◌, ◌+◌, ◌==◌, [], ◌∷◌, ◌++◌, length, take, slice_get, slice_set, IsOk, IfOk, OnOk, OnErr, IsTrue, MatchOption};
ghost use Rattle.knox_words.specs.Lists.{are_widths, fit, zeros, zeros_or};

use crate::{Word, word_or};
use std::alloc::{AllocError, Global};
use std::marker::Model;

/// A list of words.
#[derive(Debug, Drop)]
pub struct Words {
    items: Vec<Word>,
}

impl Model for Words {
    ghost use Rattle.std.specs.Prelude.{List};
    ghost use Rattle.knox_words.specs.Bits.{Bits};

    ghost Value = { List Bits };

    ghost view = { λ w. w.items.items };
}

impl PartialEq for Words {
    ghost use Rattle.std.specs.Cmp.{partial_equiv_from_equiv, on_equiv, and_equiv, nat_eq_equiv};
    ghost use Rattle.std.specs.Cmp.Lexicographic.{lists_equiv};
    ghost use Rattle.knox_words.specs.Bits.{Bits};
    ghost use Rattle.knox_words.specs.Lists.{same_words};

    ghost eq = { same_words };

    ghost laws = { partial_equiv_from_equiv (lists_equiv (and_equiv (on_equiv (λ (a : Bits). a.width) nat_eq_equiv) (on_equiv (λ (a : Bits). a.value) nat_eq_equiv))) };

    fn eq(&self, other: &Words) -> bool {
        self.items.as_slice() == other.items.as_slice()
    }
}

impl Eq for Words {
    ghost use Rattle.std.specs.Cmp.{on_equiv, and_equiv, nat_eq_equiv};
    ghost use Rattle.std.specs.Cmp.Lexicographic.{lists_equiv};
    ghost use Rattle.knox_words.specs.Bits.{Bits};

    ghost laws = { lists_equiv (and_equiv (on_equiv (λ (a : Bits). a.width) nat_eq_equiv) (on_equiv (λ (a : Bits). a.value) nat_eq_equiv)) };
}

impl Words {
    /// The empty list.
    pub fn new(alloc: Global) -> Words
        ensures { result ≡ [] }
    {
        Words {
            items: Vec::new(alloc),
        }
    }

    /// The zero words of these widths, which `are_widths` tests. `Err` is want of memory.
    #[tactic(auto, using(crate::proofs::Lists::zero_words))]
    pub fn zeros(alloc: Global, widths: &[u8]) -> Result<Words, AllocError>
        requires { IsTrue (are_widths widths.now) }
        ensures { IfOk result (λ w. w ≡ zeros widths.now) }
    {
        Words::zeros_or(alloc, widths)
    }

    /// The zero words of these widths, where the zero word of width 1 stands for a number that is no
    /// width. `Err` is want of memory.
    pub fn zeros_or(alloc: Global, widths: &[u8]) -> Result<Words, AllocError>
        ensures { IfOk result (λ w. w ≡ zeros_or widths.now) }
    {
        let items = widths
            .iter()
            .map(|width| word_or(*width, 0))
            .collect(alloc)?;
        Ok(Words { items })
    }

    /// The words of a `Vec`.
    pub fn from_vec(items: Vec<Word>) -> Words
        ensures { result ≡ items.items }
    {
        Words { items }
    }

    /// The words as a `Vec`.
    pub fn into_vec(self) -> Vec<Word>
        ensures { result.items ≡ self }
    {
        self.items
    }

    /// The words as a slice.
    pub fn as_slice(&self) -> &[Word]
        ensures { result.now ≡ self.now }
    {
        self.items.as_slice()
    }

    /// The number of words.
    pub fn len(&self) -> usize
        ensures { result ≡ length self.now }
    {
        self.items.len()
    }

    /// Whether there is no word.
    pub fn is_empty(&self) -> bool
        ensures { result ≡ (length self.now == 0) }
    {
        self.items.is_empty()
    }

    /// The word at a place, counted from 0. `None` exactly past the end.
    pub fn get(&self, at: usize) -> Option<Word>
        ensures { result ≡ slice_get self.now at }
    {
        self.items.get(at).copied()
    }

    /// Replaces the word at a place.
    pub fn set(&mut self, at: usize, word: Word)
        requires { at < length self.old }
        ensures { self.new ≡ slice_set self.old at word }
    {
        self.items[at] = word;
    }

    /// Replaces the word at a place, where there is one, and else changes nothing.
    #[tactic(auto, using(std::proofs::lemmas::List::set_past))]
    pub fn put(&mut self, at: usize, word: Word)
        ensures { self.new ≡ slice_set self.old at word }
    {
        if at < self.items.len() {
            self.items[at] = word;
        }
    }

    /// Replaces the word some places on, where there is one, and else changes nothing.
    #[tactic(auto, using(std::proofs::lemmas::List::set_past))]
    pub fn put_far(&mut self, first: u32, more: u128, word: Word)
        ensures { self.new ≡ slice_set self.old (first + more) word }
    {
        if more < self.items.len() as u128 {
            self.put(first as usize + more as usize, word);
        }
    }

    /// Takes the last word. `None` exactly where there is none.
    pub fn pop(&mut self) -> Option<Word>
        ensures { MatchOption result ((self.old ≡ []) × (self.new ≡ [])) (λ last. self.old ≡ self.new ++ last ∷ []) }
    {
        self.items.pop()
    }

    /// Drops all words but the first `n`.
    pub fn truncate(&mut self, n: usize)
        ensures { self.new ≡ take n self.old }
    {
        self.items.truncate(n);
    }

    /// Drops all words.
    pub fn clear(&mut self)
        ensures { self.new ≡ [] }
    {
        self.items.clear();
    }

    /// Replaces all words by as many others.
    pub fn write(&mut self, words: &[Word])
        requires { length words.now ≡ length self.old }
        ensures { self.new ≡ words.now }
    {
        self.items.as_mut_slice().copy_from_slice(words);
    }

    /// Replaces all words, whatever the numbers of words. `Err` is want of memory, which can come only
    /// where the list grows.
    pub fn copy_from(&mut self, words: &[Word]) -> Result<(), AllocError>
        ensures ok { OnOk result (self.new ≡ words.now) }
        ensures err { OnErr result (self.new ≡ self.old) }
        ensures succeeds { length words.now ≤ length self.old → IsOk result }
    {
        let len = self.items.len();
        if len < words.len() {
            self.extend(&words[len..])?;
        } else {
            self.items.truncate(words.len());
        }
        self.write(words);
        Ok(())
    }

    /// Appends a word. `Err` is want of memory.
    pub fn push(&mut self, word: Word) -> Result<(), AllocError>
        ensures ok { OnOk result (self.new ≡ self.old ++ word ∷ []) }
        ensures err { OnErr result (self.new ≡ self.old) }
    {
        self.items.push(word)?;
        Ok(())
    }

    /// Appends words. `Err` is want of memory.
    pub fn extend(&mut self, words: &[Word]) -> Result<(), AllocError>
        ensures ok { OnOk result (self.new ≡ self.old ++ words.now) }
        ensures err { OnErr result (self.new ≡ self.old) }
    {
        self.items.extend_from_slice(words)?;
        Ok(())
    }

    /// A copy. `Err` is want of memory.
    pub fn copy(&self, alloc: Global) -> Result<Words, AllocError>
        ensures { IfOk result (λ w. w ≡ self.now) }
    {
        let items = Vec::from_slice(alloc, self.items.as_slice())?;
        Ok(Words { items })
    }
}
