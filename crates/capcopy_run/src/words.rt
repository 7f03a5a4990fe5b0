//! The words of a run, from any source.

ghost use Rattle.std.specs.Prelude.{◌≡◌, ℕ, List, Option, None, IfSome, slice_get};
ghost use Rattle.std.specs.Io.{WritesAtMost};
ghost use Rattle.capcopy_run.specs.Runs.{AreTexts, RunsBuffered, StandsAt, TellsWord};
ghost use Rattle.capcopy_run.specs.WordPlaces.{environment_of, words_in};
ghost use Rattle.capcopy_run.specs.Words.{texts_of};

use crate::run;
use pcap_program::{Exit, Uninterrupted};
use std::alloc::Global;
use std::env::{Env, FillError};
use std::io::{BufReader, Read, Write};
use std::str;

/// The most lines or packets that one run of the program writes.
pub const MOST: u64 = 4_294_967_295;

/// The size of the program's input buffer, in bytes. If its end cuts a packet to be copied or a block to be listed, the program
/// allocates another buffer for that item.
const INPUT: usize = 262_144;

/// The greatest length of a word. The program knows no longer one.
const LONGEST_WORD: usize = 64;

/// The buffer for one word.
type Room = [u8; LONGEST_WORD];

/// A source of the words of a run. They need not be text.
pub trait Words {
    // The words, if they are known.
    ghost words: { Self → Option (List (List ℕ)) } = { λ _. None };

    /// Copies the word at this index to the front of `room`, and returns its length in bytes.
    fn word(&self, index: usize, room: &mut [u8]) -> Result<usize, FillError>
        ensures bound { WritesAtMost result room.new }
        ensures tells { IfSome (words self.now) (λ all. TellsWord (slice_get all index) result room.new) };
}

/// The arguments of a process, after the program's name.
#[derive(Drop)]
pub struct Arguments<E> {
    env: E,
}

impl<E: Env> Arguments<E> {
    /// Returns the arguments of this environment after the first.
    pub fn new(env: E) -> Arguments<E>
        ensures { environment_of result ≡ env }
    {
        Arguments { env }
    }
}

impl<E: Env> Words for Arguments<E> {
    fn word(&self, index: usize, room: &mut [u8]) -> Result<usize, FillError> {
        self.env.arg(index.saturating_add(1), room)
    }
}

/// Words in memory.
#[derive(Drop)]
pub struct WordList<'a> {
    words: &'a [&'a [u8]],
}

impl<'a> WordList<'a> {
    /// Returns a source of these words.
    pub fn new(words: &'a [&'a [u8]]) -> WordList<'a>
        ensures { words_in result ≡ texts_of words.now }
    {
        WordList { words }
    }
}

impl Words for WordList<'_> {
    ghost use Rattle.std.specs.Prelude.{Some};

    ghost words = { λ list. Some (words_in list) };

    fn word(&self, index: usize, room: &mut [u8]) -> Result<usize, FillError> {
        let Some(word) = self.words.get(index) else {
            return Err(FillError::NotPresent);
        };
        if room.len() < word.len() {
            return Err(FillError::TooLong);
        }
        room[..word.len()].copy_from_slice(word);
        Ok(word.len())
    }
}

// The word at an index, if there is one.
#[derive(Drop)]
enum Place<'a> {
    Empty,
    Unknown,
    Text(&'a str),
}

// Returns the word at this index.
fn find_word<'a, E: Words>(words: &E, index: usize, room: &'a mut Room) -> Place<'a>
    ensures { IfSome (E.words words.now) (λ all. StandsAt (slice_get all index) result) }
{
    match words.word(index, room) {
        Ok(n) => match str::from_utf8(&room[..n]) {
            Ok(text) => Place::Text(text),
            Err(_) => Place::Unknown,
        },
        Err(FillError::NotPresent) => Place::Empty,
        Err(FillError::TooLong) => Place::Unknown,
    }
}

// Up to three words.
#[derive(Drop)]
enum Texts<'a> {
    // They select no action.
    Nothing,
    One(&'a str),
    Two(&'a str, &'a str),
    Three(&'a str, &'a str, &'a str),
}

// Returns all words if they may be those of an action.
fn texts_in<'a, E: Words>(
    words: &E,
    first: &'a mut Room,
    second: &'a mut Room,
    third: &'a mut Room,
) -> Texts<'a>
    ensures { IfSome (E.words words.now) (λ all. AreTexts all result) }
{
    let first = match find_word(words, 0, first) {
        Place::Empty => return Texts::Nothing,
        Place::Unknown => return Texts::Nothing,
        Place::Text(first) => first,
    };
    let second = match find_word(words, 1, second) {
        Place::Empty => return Texts::One(first),
        Place::Unknown => return Texts::Nothing,
        Place::Text(second) => second,
    };
    let third = match find_word(words, 2, third) {
        Place::Empty => return Texts::Two(first, second),
        Place::Unknown => return Texts::Nothing,
        Place::Text(third) => third,
    };
    match words.word(3, &mut []) {
        Err(FillError::NotPresent) => Texts::Three(first, second, third),
        Err(FillError::TooLong) => Texts::Nothing,
        Ok(_) => Texts::Nothing,
    }
}

// Runs the action that these words select, over an unbuffered input.
fn run_texts<R: Read + Drop, W: Write>(
    alloc: Global,
    texts: &[&str],
    input: R,
    output: &mut W,
) -> Exit
    ensures { RunsBuffered (texts_of texts.now) 4294967295 (R.remaining input) (W.contents output.old) (W.contents output.new) result }
{
    let Ok(mut input) = BufReader::with_capacity(alloc, INPUT, Uninterrupted::new(input)) else {
        return Exit::Memory;
    };
    run(alloc, texts, &mut input, output, MOST)
}

// Runs the action that these texts select, over an unbuffered input.
fn run_asked<R: Read + Drop, W: Write>(
    alloc: Global,
    texts: Texts,
    input: R,
    output: &mut W,
) -> Exit
    ensures { (words : List (List ℕ)) → AreTexts words texts.entry
        → RunsBuffered words 4294967295 (R.remaining input) (W.contents output.old) (W.contents output.new) result }
{
    match texts {
        Texts::Nothing => Exit::Usage,
        Texts::One(first) => run_texts(alloc, &[first], input, output),
        Texts::Two(first, second) => run_texts(alloc, &[first, second], input, output),
        Texts::Three(first, second, third) => {
            run_texts(alloc, &[first, second, third], input, output)
        }
    }
}

/// Runs the program with these words, as `run` does with `MOST` lines or packets, over an unbuffered input. Interrupted reads are
/// repeated.
///
/// A word of more than 64 bytes or one that isn't UTF-8 selects no action, and neither do more than three words. Returns `Memory` also
/// if the input buffer can't be allocated; then nothing is written. The output is flushed as by `run`.
pub fn run_words<E: Words, R: Read + Drop, W: Write>(
    alloc: Global,
    words: &E,
    input: R,
    output: &mut W,
) -> Exit
    ensures { IfSome (E.words words.now) (λ all. RunsBuffered all 4294967295 (R.remaining input) (W.contents output.old) (W.contents output.new) result) }
{
    let mut first = [0; LONGEST_WORD];
    let mut second = [0; LONGEST_WORD];
    let mut third = [0; LONGEST_WORD];
    let texts = texts_in(words, &mut first, &mut second, &mut third);
    run_asked(alloc, texts, input, output)
}
