//! The digest of a text.

ghost use Rattle.std.specs.Prelude.{◌≡◌, ◌≢◌, ◌<◌, ◌^◌, ◌++◌, [], ℕ, List, length};
ghost use Rattle.checked_log.specs.Digest as spec;

use crate::put::put;
use std::marker::Model;

const START: u64 = 0x9E37_79B9_7F4A_7C15;

const FACTOR: u64 = 0xD6E8_FEB8_6659_FD93;

// The number after one more word.
#[tactic(auto, unfolding(crate::specs::Digest::step))]
fn step(number: u64, word: u64) -> u64
    ensures { result ≡ spec.step number word }
{
    let mixed = (number ^ word).wrapping_mul(FACTOR);
    mixed ^ (mixed >> 32)
}

// The word of the last bytes, as if zeros stood behind them.
#[tactic(auto, unfolding(crate::specs::Digest::word))]
fn last_word(bytes: &[u8]) -> u64
    requires { length bytes.now < 8 }
    ensures { result ≡ spec.word bytes.now }
{
    let mut whole = [0; 8];
    whole[..bytes.len()].copy_from_slice(bytes);
    u64::from_le_bytes(whole)
}

// The number after each whole word of a text, and the bytes that are left.
fn after_words(number: u64, text: &[u8]) -> (u64, &[u8])
    ensures left { length result.1.now < 8 }
    ensures number { (rest : List ℕ) → spec.finished (spec.front result.0 result.1.now) rest ≡ spec.finished (spec.front number text.now) rest }
{
    let mut after = number;
    let mut left = text;
    while let Some((word, rest)) = left.split_first_chunk::<8>() {
        after = step(after, u64::from_le_bytes(*word));
        left = rest;
    }
    (after, left)
}

/// A digest of a text that comes in pieces, whose length is known. A clause sees what was made of the text's front.
#[derive(Drop)]
pub struct Digesting {
    /// The number after the whole words so far.
    number: u64,
    /// The word that is not whole yet.
    held: [u8; 8],
    /// How many bytes of it came.
    count: usize,
}

impl Model for Digesting {
    ghost use Rattle.std.specs.Prelude.{◌<◌, take};
    ghost use Rattle.checked_log.specs.Digest.{Front, front};

    ghost Value = { Front };

    ghost view = { λ d. front d.number (take d.count d.held) };

    ghost invariant = { λ d. d.count < 8 };
}

impl Digesting {
    /// Of a text of so many bytes, none of which came yet.
    pub fn new(count: usize) -> Digesting
        ensures { (text : List ℕ) → length text ≡ count → spec.finished result text ≡ spec.digest text }
    {
        Digesting {
            number: START ^ count as u64,
            held: [0; 8],
            count: 0,
        }
    }

    /// A piece more. O(bytes).
    pub fn take(&mut self, piece: &[u8])
        ensures { (rest : List ℕ) → spec.finished self.new rest ≡ spec.finished self.old (piece.now ++ rest) }
    {
        let Some((front, rest)) = piece.split_at_checked(8 - self.count) else {
            put(&mut self.held, self.count, piece);
            self.count += piece.len();
            return;
        };
        put(&mut self.held, self.count, front);
        let (number, left) = after_words(step(self.number, u64::from_le_bytes(self.held)), rest);
        put(&mut self.held, 0, left);
        self.number = number;
        self.count = left.len();
    }

    /// The digest, once all bytes came. O(1).
    pub fn finish(self) -> u64
        ensures { result ≡ spec.finished self [] }
    {
        step(self.number, last_word(&self.held[..self.count]))
    }
}

/// The digest of a text. Texts of one length that differ within one word of 8 bytes have different digests. O(bytes).
pub fn digest_of(text: &[u8]) -> u64
    ensures { result ≡ spec.digest text.now }
{
    let mut digesting = Digesting::new(text.len());
    digesting.take(text);
    digesting.finish()
}

/// A law of all texts that memory can hold: those of one length that differ in one word of 8 bytes alone, as in one byte, have different digests.
pub fn changed_word_is_found()
    ensures { (number : ℕ) (one other : List ℕ) → spec.IsBytes one → spec.IsBytes other → length one < 2 ^ 64 → spec.DifferInWord number one other → spec.digest one ≢ spec.digest other }
{}
