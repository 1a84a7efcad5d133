//! One set of the cache: its lines and their ages.
ghost use Rattle.std.specs.Prelude.{◌≡◌, ℕ, ◌+◌, ◌-◌, ◌<◌, ◌≤◌, List, [], ◌∷◌, length, take, remove, slice_index, IfSome, IfNone, false, is_some, slice_set};

use std::marker::Model;

/// A line that is present, with its eight words.
#[derive(Clone, Copy, Drop)]
pub struct Line {
    /// The line's number: that of its words divided by 8.
    pub line: u32,
    /// Its words, in rising order of their addresses.
    pub words: [u32; 8],
}

/// The lines that are present in one set, the one whose last load access is newest first.
#[derive(Drop)]
pub struct Set {
    lines: [Line; 4],
    used: usize,
}

impl Model for Set {
    ghost use Rattle.std.specs.Prelude.{ℕ, List, take, ◌≤◌};
    ghost use Rattle.plural_cache.specs.declared.set.Line.{Line};

    ghost Value = { List Line };

    ghost view = { λ s. take s.used s.lines };

    ghost invariant = { λ s. s.used ≤ 4 };
}

impl Line {
    /// The line with one word set.
    fn with_word(self, w: usize, v: u32) -> Line
        requires w { w < 8 }
        ensures words { result ≡ record self { words = slice_set self.words w v } }
        ensures eight { length self.words ≡ 8 }
    {
        let mut words = self.words;
        words[w] = v;
        Line { words, ..self }
    }
}

/// Puts a line before the others, in place of the p-th.
#[inline(always)]
fn shift_in(lines: &mut [Line], p: usize, line: Line)
    requires { p < length lines.old }
    ensures { lines.new ≡ line ∷ remove lines.old p }
{
    for i in 0..p {
        lines[p - i] = lines[p - i - 1];
    }
    lines[0] = line;
}

impl Set {
    ghost use Rattle.plural_cache.specs.Miss.{is_in};
    ghost use Rattle.plural_cache.specs.Lines.{keys, brought, updated, front, look, IsFirst};

    /// A set with no line.
    pub fn empty() -> Set
        ensures { result ≡ [] }
    {
        Set {
            lines: [Line {
                line: 0,
                words: [0; 8],
            }; 4],
            used: 0,
        }
    }

    /// Drops every line.
    pub fn clear(&mut self)
        ensures { self.new ≡ [] }
    {
        self.used = 0;
    }

    /// The place of line `x`, from 0 for the newest.
    #[inline(always)]
    fn find(&self, x: u32) -> Option<usize>
        ensures some { IfSome result (λ p. IsFirst x p self.now) }
        ensures none { IfNone result (is_in x (keys self.now) ≡ false) }
        ensures found { is_some result ≡ is_in x (keys self.now) }
    {
        for i in 0..self.used {
            if self.lines[i].line == x {
                return Some(i);
            }
        }
        None
    }

    /// Makes line `x` the newest, and answers whether it is present.
    #[inline(always)]
    pub fn seek(&mut self, x: u32) -> bool
        ensures present { result ≡ is_in x (keys self.old) }
        ensures order { self.new ≡ brought x self.old }
    {
        match self.find(x) {
            Some(p) => {
                self.touch(p);
                true
            }
            None => false,
        }
    }

    /// Makes the line at place `p` the newest.
    #[inline(always)]
    fn touch(&mut self, p: usize)
        requires { p < length self.old }
        ensures { (x : ℕ) → IsFirst x p self.old → self.new ≡ brought x self.old }
    {
        if p > 0 {
            self.bring(p);
        }
    }

    /// The same by a call. The second place is the usual one, and is moved without a loop.
    #[inline(never)]
    fn bring(&mut self, p: usize)
        requires { p < length self.old }
        ensures { (x : ℕ) → IsFirst x p self.old → self.new ≡ brought x self.old }
    {
        if p == 1 {
            self.put_first(1);
        } else {
            self.put_first(p);
        }
    }

    /// Moves the line at place `p` before the others.
    #[inline(always)]
    fn put_first(&mut self, p: usize)
        requires { p < length self.old }
        ensures { (x : ℕ) → IsFirst x p self.old → self.new ≡ brought x self.old }
    {
        let _ = &self.used;
        let line = self.lines[p];
        shift_in(&mut self.lines, p, line);
    }

    /// Puts a line first; if the set is full, the last is dropped.
    #[inline(always)]
    pub fn push(&mut self, ways: usize, line: Line)
        requires { (0 < ways) × (ways ≤ 4) }
        ensures { self.new ≡ line ∷ take (ways - 1) self.old }
    {
        let kept = self.used.min(ways - 1);
        shift_in(&mut self.lines, kept, line);
        self.used = kept + 1;
    }

    /// A word of the newest line.
    #[inline(always)]
    pub fn front_word(&self, w: usize) -> u32
        requires w { w < 8 }
        requires some { 0 < length self.now }
        ensures { result ≡ slice_index (front self.now) w }
    {
        self.lines[0].words[w]
    }

    /// Sets word `w` of line `x`, if the line is present. No age changes.
    pub fn update(&mut self, x: u32, w: usize, v: u32)
        requires w { w < 8 }
        ensures order { self.new ≡ updated x w v self.old }
        ensures eight { IfSome (look x self.old) (λ ws. length ws ≡ 8) }
    {
        if let Some(p) = self.find(x) {
            self.lines[p] = self.lines[p].with_word(w, v);
        }
    }
}
