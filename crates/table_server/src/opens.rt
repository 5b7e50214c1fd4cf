//! Files that are opened and made at their paths, and sockets that listen.
ghost use Rattle.std.specs.Prelude.{◌≢◌, IfOk, OnErr, OnOk, List, ℕ, ⊤};
ghost use Rattle.program_words.specs.declared.address.Address.{Address};
ghost use Rattle.table_server.specs.Making.{Making};

use program_words::Address;
use std::io::{Read, Write};
use std::net::{Net, TcpListener, TcpStream};
use std::os::unix::net::UnixListener;
use std::rt::Files;
use std::{fs, io};
use table_engine::Sink;
use table_sockets::{Accepts, Listening};

/// What opens files, to be read.
pub trait Opens {
    /// A file that is open.
    type Opened: Read + Drop;

    /// What is known of a file that was just opened at a path.
    ghost is_at: { Self → List ℕ → Self.Opened → Type 0 };

    /// Opens the file at a path.
    fn open(&self, path: &str) -> io::Result<Self::Opened>
        ensures { IfOk result (λ file. is_at self.now path.now file) };
}

/// Nothing is known of the host's files.
impl<R: Files> Opens for R {
    type Opened = R::File;

    ghost is_at = { λ _ _ _. ⊤ };

    fn open(&self, path: &str) -> io::Result<R::File> {
        fs::open(self, path)
    }
}

/// What makes files, and puts them at their paths once they are written.
pub trait Makes {
    /// A path that was tried.
    type Begun: Drop;

    /// A file that was made.
    type Made: Write + Drop;

    /// What is known of paths that were tried, and of files that were made, put and let go.
    ghost known: { Making Self Self.Begun Self.Made };

    /// Tries a path, at which a file is to stand that is not the one at `read`. What stands there stays as it is.
    fn begin(&mut self, path: &str, read: &str) -> io::Result<Self::Begun>
        ensures begun { IfOk result (λ begun. known.begun self.old path.now read.now self.new begun) }
        ensures refused { OnErr result (known.not_begun self.old path.now read.now self.new) };

    /// The file for a path, with nothing written to it.
    fn make(&mut self, path: &str, begun: Self::Begun) -> io::Result<Self::Made>
        ensures made { IfOk result (λ made. known.made self.old path.now begun self.new made) }
        ensures refused { OnErr result (known.not_made self.old path.now begun self.new) };

    /// Puts a file that was made for a path there, with all that was written to it.
    fn put(&mut self, path: &str, made: Self::Made) -> io::Result<()>
        ensures put { OnOk result (known.put self.old path.now made self.new) }
        ensures refused { OnErr result (known.not_put self.old path.now made self.new) };

    /// Lets a file go that was made for a path, where a write to it has failed.
    fn leave(&mut self, path: &str, made: Sink<Self::Made>)
        requires { made.failures ≢ 0 }
        ensures { known.left self.old path.now made.inner self.new };
}

/// What listens at addresses.
pub trait Listens {
    /// What accepts the connections of an address.
    type Listener: Accepts + Drop + Sync;

    /// What is known of what was just made to listen at an address.
    ghost is_listening: { Self → Address → Self.Listener → Type 0 };

    /// Listens at the address. A Unix socket's file has to be a new one, and stays when nobody listens any more.
    fn listen(&self, address: Address<'_>) -> io::Result<Self::Listener>
        ensures { IfOk result (λ listener. is_listening self.now address.entry listener) };
}

/// Nothing is known of the host's sockets.
impl<R: Files + Net<Listener = TcpListener, Stream = TcpStream>> Listens for R {
    type Listener = Listening;

    ghost is_listening = { λ _ _ _. ⊤ };

    fn listen(&self, address: Address<'_>) -> io::Result<Listening> {
        match address {
            Address::Unix(path) => Ok(Listening::Unix(UnixListener::bind(self, path)?)),
            Address::Tcp(place) => Ok(Listening::Tcp(TcpListener::bind(self, place)?)),
        }
    }
}
