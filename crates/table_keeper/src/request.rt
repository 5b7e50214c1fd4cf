//! How a stream begins that is a request of HTTP.
ghost use Rattle.std.specs.Prelude.{◌≡◌, fold};
ghost use Rattle.table_keeper.specs.Request.{after, is_request, one_more};

/// The fewest letters of a method.
const SHORTEST: u8 = 3;

/// What is known of how a stream begins.
#[derive(Clone, Copy, Debug, PartialEq, Eq)]
pub(crate) enum Beginning {
    /// So many capital letters came, or at least the fewest of a method, and nothing else.
    Letters(u8),
    /// It is a request: a method in capital letters came, and a space.
    Request,
    /// It is no request.
    Other,
}

impl Beginning {
    /// Nothing came yet.
    pub(crate) fn new() -> Beginning
        ensures { result ≡ Beginning.Letters 0 }
    {
        Beginning::Letters(0)
    }

    // What is known once this byte came too.
    fn after(self, byte: u8) -> Beginning
        ensures { result ≡ after self byte }
    {
        match self {
            Beginning::Letters(count) => {
                if byte.is_ascii_uppercase() {
                    Beginning::Letters(one_more(count))
                } else if byte == b' ' && count >= SHORTEST {
                    Beginning::Request
                } else {
                    Beginning::Other
                }
            }
            known => known,
        }
    }

    // What is known once these bytes came too.
    fn behind(self, bytes: &[u8]) -> Beginning
        ensures { result ≡ fold after self bytes.now }
    {
        let mut known = self;
        for byte in bytes {
            known = known.after(*byte);
        }
        known
    }

    /// Takes the next bytes, and says whether the stream begins as a request does: with a method in capital letters, and a space. No
    /// command begins so.
    #[tactic(auto, using(crate::proofs::Settled::other_stays, crate::proofs::Settled::request_stays))]
    pub(crate) fn asks(&mut self, bytes: &[u8]) -> bool
        ensures taken { self.new ≡ fold after self.old bytes.now }
        ensures told { result ≡ is_request self.new }
    {
        if let Beginning::Letters(_) = *self {
            *self = self.behind(bytes);
        }
        match self {
            Beginning::Request => true,
            _ => false,
        }
    }
}

// One letter more, up to the fewest of a method.
fn one_more(count: u8) -> u8
    ensures { result ≡ one_more count }
{
    if count < SHORTEST { count + 1 } else { count }
}
