//! Words of the command line whose values stand in files. Whoever lists the processes of a system sees their words, but
//! not what such a file holds.
use std::alloc::{AllocError, Global};
use std::fs::File;
use std::io;
use std::io::{ErrorKind, Read};

/// Bytes of a file that are read as a word, at most: more than any word of the command set has.
const LONGEST: usize = 64;

/// The options whose value may stand in a file, and how they are spelled before a value in the same word.
const OPTIONS: [(&str, &str); 2] = [("--op", "--op="), ("--key", "--key=")];

/// The words of the command line, and the name of a file that one of them names and that can't be read.
#[derive(Drop)]
pub(crate) struct Words {
    pub(crate) said: Vec<String>,
    pub(crate) unread: Option<String>,
}

/// The words, where a value of `--op` or `--key` that begins with `@` is what the file of the name behind it holds,
/// without a line feed at its end. Where such a file can't be read, or isn't text, the word stays as it is.
pub(crate) fn with_files(rt: &HostRuntime, given: Vec<String>) -> Result<Words, AllocError> {
    let alloc = rt.alloc();
    let mut words = Words {
        said: Vec::new(alloc),
        unread: None,
    };
    let mut is_value = false;
    for word in given.iter() {
        let option = if is_value { Some("") } else { option_of(word) };
        is_value = !is_value && is_option(word);
        let word = match option {
            Some(option) => value(rt, option, word, &mut words.unread)?,
            None => word.clone()?,
        };
        words.said.push(word)?;
    }
    Ok(words)
}

/// Whether the next word is the value of this one.
fn is_option(word: &str) -> bool {
    OPTIONS.iter().any(|(option, _)| *option == word)
}

/// What of the word stands before a value.
fn option_of(word: &str) -> Option<&'static str> {
    for (_, option) in OPTIONS {
        if word.starts_with(option) {
            return Some(option);
        }
    }
    None
}

/// The word with its value read from a file, where it names one.
fn value(
    rt: &HostRuntime,
    option: &'static str,
    word: &str,
    unread: &mut Option<String>,
) -> Result<String, AllocError> {
    let alloc = rt.alloc();
    let named = match word.strip_prefix(option) {
        Some(value) => value.strip_prefix("@"),
        None => None,
    };
    let Some(name) = named else {
        return String::from_str(alloc, word);
    };
    let mut room = [0; LONGEST];
    match read(rt, name, &mut room) {
        Ok(text) => {
            let mut word = String::from_str(alloc, option)?;
            word.push_str(text)?;
            Ok(word)
        }
        Err(error) if error.kind() == ErrorKind::OutOfMemory => Err(AllocError),
        Err(_) => {
            *unread = Some(String::from_str(alloc, name)?);
            String::from_str(alloc, word)
        }
    }
}

/// The first bytes of a file as text, without a line feed at the end.
fn read<'a>(rt: &HostRuntime, name: &str, room: &'a mut [u8; LONGEST]) -> io::Result<&'a str> {
    let mut file = File::open(rt, name)?;
    let mut len = 0;
    for _ in 0..LONGEST {
        let count = file.read(&mut room[len..])?;
        if count == 0 {
            break;
        }
        len += count;
    }
    let bytes = &room[..len];
    let text = bytes.strip_suffix(b"\n").unwrap_or(bytes);
    match str::from_utf8(text) {
        Ok(text) => Ok(text),
        Err(_) => Err(ErrorKind::InvalidData.into()),
    }
}
