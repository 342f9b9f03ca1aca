// Numbers and files that a program is given as words of its arguments. No contract can say which words a program was started with, nor what a
// file holds; those here say how large the numbers are, crate words which number a word spells, and how many bytes of a file were read.
#![tactic(auto)]

ghost use Rattle.console.specs.Reading.{Holds};
ghost use Rattle.words.specs.Word.{UpTo};

use std::env::{Env, FillError};
use std::fs;
use std::rt::Files;

// Whether the program was given word i, counted from 1.
fn is_given<R: Env>(rt: &R, i: usize) -> bool {
    match rt.arg(i, &mut []) {
        Ok(_) => true,
        Err(FillError::TooLong) => true,
        Err(FillError::NotPresent) => false,
    }
}

// How many words the program was given, its own name left out.
pub fn word_count<R: Env>(rt: &R) -> usize {
    for count in 0..usize::MAX {
        if !is_given(rt, count + 1) {
            return count;
        }
    }
    usize::MAX
}

// The number up to `most` that word i spells, counted from 1. A word that is missing or longer than 64 bytes says none, like one that is
// no such number.
pub fn number_word<R: Env>(rt: &R, i: usize, most: u32) -> Option<u32>
    ensures { UpTo most result }
{
    let mut bytes = [0u8; 64];
    let n = rt.arg(i, &mut bytes).ok()?;
    words::word_number(&bytes[..n], most)
}

// Reads the file of this name until the bytes are full or the file ends.
fn read_named<R: Files>(rt: &R, name: &str, bytes: &mut [u8]) -> Option<usize>
    ensures { Holds result bytes.new }
{
    let mut file = fs::open(rt, name).ok()?;
    console::read_open(&mut file, bytes)
}

// The same where the name is bytes: those that are no text name no file.
fn read_path<R: Files>(rt: &R, path: &[u8], bytes: &mut [u8]) -> Option<usize>
    ensures { Holds result bytes.new }
{
    let name = str::from_utf8(path).ok()?;
    read_named(rt, name, bytes)
}

// Reads the file that word i names, counted from 1, until the bytes are full or the file ends; none where the word is missing or
// names no file that can be opened, and where a read fails, as of a folder.
pub fn read_file<R: Env + Files>(rt: &R, i: usize, bytes: &mut [u8]) -> Option<usize>
    ensures { Holds result bytes.new }
{
    let mut path = io::buffer();
    let n = rt.arg(i, &mut path).ok()?;
    read_path(rt, &path[..n], bytes)
}
