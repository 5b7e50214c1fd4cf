//! Words that ask for a service, and what they ask for.

use program_words::read_words;
use std::alloc::{AllocError, Global};

const WORDS: [&str; 4] = [
    "serve --schema s --listen unix:/a",
    "serve --listen tcp:127.0.0.1:80 --schema s --workers 16 --journal j",
    "serve --listen=tcp:[::1]:0 --each=1000000 --schema=s",
    "serve --schema s --listen unix:tcp: --workers 2 --each 3",
];

// What words ask for.
fn asked(alloc: Global, text: &str) -> Result<String, AllocError> {
    let mut words = Vec::new(alloc);
    for word in text.split_whitespace() {
        words.push(String::from_str(alloc, word)?)?;
    }
    match read_words(alloc, &words) {
        Ok(asked) => format!(in alloc; "{text}: {asked:?}\n"),
        Err(fault) => format!(in alloc; "{text}: {fault:?}\n"),
    }
}

/// Adds to the report what each of these words asks for.
pub fn tell_words(alloc: Global, report: &mut Vec<u8>) -> Result<(), AllocError> {
    for text in WORDS {
        report.extend_from_slice(asked(alloc, text)?.as_bytes())?;
    }
    Ok(())
}
