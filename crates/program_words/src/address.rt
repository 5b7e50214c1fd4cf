//! Where the program listens.
ghost use Rattle.std.specs.Prelude.{◌≢◌, [], codes, MatchOption};
ghost use Rattle.program_words.specs.Address.{IsAddress, IsNoAddress};

use std::net::SocketAddr;

/// Where the program listens.
#[derive(Clone, Copy, Debug, PartialEq, Eq)]
pub enum Address<'a> {
    /// A Unix socket at this path, which is not empty.
    Unix(&'a str),
    /// A TCP socket.
    Tcp(SocketAddr),
}

impl<'a> Address<'a> {
    /// Reads `unix:PATH` or `tcp:IP:PORT`.
    pub fn read(text: &'a str) -> Option<Address<'a>>
        ensures { MatchOption result (IsNoAddress text.entry.now) (IsAddress text.entry.now) }
    {
        if let Some(path) = text.strip_prefix("unix:") {
            if path.is_empty() {
                return None;
            }
            return Some(Address::Unix(path));
        }
        let place = text.strip_prefix("tcp:")?;
        match place.parse() {
            Ok(place) => Some(Address::Tcp(place)),
            Err(_) => None,
        }
    }
}
