//! The words of a line.

use std::alloc::Global;
use uf_cid::Memory;

/// A number; 0 where the word is none.
pub fn number_of(word: &str) -> u64 {
    word.parse::<u64>().unwrap_or(0)
}

/// The first word of a line, and what follows it.
pub fn word_and_rest(line: &str) -> (&str, &str) {
    line.split_once(' ').unwrap_or((line, ""))
}

/// The first word of a line as a number, and what follows it.
pub fn number_and_rest(line: &str) -> (u64, &str) {
    let (first, rest) = word_and_rest(line);
    (number_of(first), rest)
}

/// The first two words of a line as numbers, and what follows them.
pub fn two_numbers_and_rest(line: &str) -> (u64, u64, &str) {
    let (first, rest) = number_and_rest(line);
    let (second, rest) = number_and_rest(rest);
    (first, second, rest)
}

/// The words of a line, which end at tabs where it has some.
pub fn words_of(alloc: Global, line: &str) -> Result<Vec<String>, Memory> {
    let end = if line.contains('\t') { '\t' } else { ' ' };
    let mut words = Vec::new(alloc);
    for word in line.split(end) {
        words.push(String::from_str(alloc, word)?)?;
    }
    Ok(words)
}
