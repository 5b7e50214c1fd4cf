//! Words that are found under either of two names: two hashed indices, both unique.
#![tactic(auto)]

mod words;

use indexed::{Indexed, Text};
use std::io;
use words::{BY_ENGLISH, BY_SPANISH, INDICES, MOST, Word, by_english, by_spanish};

const WORDS: [(&str, &str); 4] = [
    ("hello", "hola"),
    ("cat", "gato"),
    ("jack", "gato"),
    ("house", "casa"),
];

fn word(rt: &HostRuntime, english: &str, spanish: &str) -> io::Result<Word> {
    Ok(Word {
        english: Text::copy_of(rt.alloc(), english)?,
        spanish: Text::copy_of(rt.alloc(), spanish)?,
    })
}

fn put_all(rt: &HostRuntime, words: &mut Indexed<Word>) -> io::Result<()> {
    for (english, spanish) in WORDS {
        match words.insert(word(rt, english, spanish)?) {
            Ok(_) => println!(rt; "{english} is {spanish}")?,
            Err(refused) => println!(rt; "{english}: {refused}")?,
        }
    }
    Ok(())
}

fn look_up(rt: &HostRuntime, words: &Indexed<Word>) -> io::Result<()> {
    let cat = by_english(rt.alloc(), "cat")?;
    println!(rt; "{:?}", words.index(BY_ENGLISH).row(&cat))?;
    for spanish in ["casa", "perro"] {
        let sought = by_spanish(rt.alloc(), spanish)?;
        println!(rt; "{:?}", words.index(BY_SPANISH).row(&sought))?;
    }
    Ok(())
}

fn main(rt: HostRuntime) -> io::Result<()> {
    let mut words = Indexed::new(rt.alloc(), INDICES, MOST)?;
    put_all(&rt, &mut words)?;
    look_up(&rt, &words)
}
