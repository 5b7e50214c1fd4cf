//! A stream over a reader and a writer whose calls are interrupted.

use crate::device::{Broken, Narrow};
use crate::sent::Sent;
use std::alloc::AllocError;
use std::io;
use std::io::{ErrorKind, Read, Write};
use table_engine::{Engine, PIECE, Sink, Source, serve_stream};

/// Words whose bits say which calls are interrupted: each second one, drawn ones, and all but each 64th.
const WORDS: [u64; 3] = [0xAAAA_AAAA_AAAA_AAAA, 0x9E37_79B9_7F4A_7C15, !1];

// A reader or a writer some of whose calls are interrupted. The last bit of the word says whether the next one is, and then
// the word is turned by that bit.
#[derive(Drop)]
struct Interrupted<D> {
    device: D,
    word: u64,
}

impl<D> Interrupted<D> {
    fn turn(&mut self) -> io::Result<()> {
        let is_interrupted = self.word & 1 == 1;
        self.word = self.word.rotate_right(1);
        if is_interrupted {
            return Err(io::Error::from(ErrorKind::Interrupted));
        }
        Ok(())
    }
}

impl<R: Read> Read for Interrupted<R> {
    fn read(&mut self, buf: &mut [u8]) -> io::Result<usize> {
        self.turn()?;
        self.device.read(buf)
    }
}

impl<W: Write> Write for Interrupted<W> {
    fn write(&mut self, buf: &[u8]) -> io::Result<usize> {
        self.turn()?;
        self.device.write(buf)
    }

    fn flush(&mut self) -> io::Result<()> {
        self.device.flush()
    }
}

// Whether the stream is served to its end with the same answers, without a failure, and with as many reads as without
// an interruption.
fn is_answered(sent: Sent, word: u64) -> Result<bool, AllocError> {
    let alloc = sent.alloc;
    let at_a_time = sent.stride().min(PIECE);
    let mut engine = Engine::new(alloc, sent.schema, 1)?;
    let mut taken = Narrow {
        room: usize::MAX,
        at_a_time,
        fails: true,
        taken: Vec::new(alloc),
    };
    let device = Broken {
        rest: sent.stream,
        at_a_time,
        fails: false,
    };
    let mut source = Source::new(Interrupted { device, word });
    let mut sink = Sink::new(Interrupted {
        device: &mut taken,
        word,
    });
    let served = serve_stream(alloc, &mut engine, 0, &mut source, &mut sink);
    let is_whole = served.is_ok() && source.failures() == 0 && sink.failures() == 0;
    let reads = sent.stream.len().div_ceil(at_a_time) + 1;
    Ok(is_whole && source.reads() == reads as u64 && taken.taken.as_slice() == sent.answers)
}

/// The first of the words by which calls are interrupted, and the stream is then served otherwise.
pub fn first_wrong_word(sent: Sent) -> Result<Option<usize>, AllocError> {
    for (at, word) in WORDS.iter().enumerate() {
        if !is_answered(sent, *word)? {
            return Ok(Some(at));
        }
    }
    Ok(None)
}
