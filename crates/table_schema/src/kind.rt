//! The texts of the kinds of indices.
ghost use Rattle.std.specs.Prelude.{◌≡◌};
ghost use Rattle.table_schema.specs.KindText.{kind_of, kind_text};

use container_model::Kind;

/// The text of a kind: `sequenced`, `random`, `ordered`, `ranked` or `hashed`. O(1).
pub fn kind_text(kind: Kind) -> &'static str
    ensures { result.now ≡ kind_text kind }
{
    match kind {
        Kind::Sequenced => "sequenced",
        Kind::Random => "random",
        Kind::Ordered => "ordered",
        Kind::Ranked => "ranked",
        Kind::Hashed => "hashed",
    }
}

/// The kind whose text this is, if it is that of one. O(1).
pub fn kind_of(text: &str) -> Option<Kind>
    ensures { result ≡ kind_of text.now }
{
    if text == kind_text(Kind::Sequenced) {
        Some(Kind::Sequenced)
    } else if text == kind_text(Kind::Random) {
        Some(Kind::Random)
    } else if text == kind_text(Kind::Ordered) {
        Some(Kind::Ordered)
    } else if text == kind_text(Kind::Ranked) {
        Some(Kind::Ranked)
    } else if text == kind_text(Kind::Hashed) {
        Some(Kind::Hashed)
    } else {
        None
    }
}
