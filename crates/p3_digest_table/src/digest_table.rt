//! Tables of digests.
ghost use Rattle.std.specs.Prelude.{◌≡◌, List, IsTrue, map};
ghost use Rattle.p3_digest_table.specs.Tables.{Line, are_digests, line_of};

use crate::KnownDigest;

/// A table of texts with their digests, determined by its type alone.
pub trait DigestTable {
    // The lines of the table.
    ghost lines: { List Line };

    /// Returns the lines of the table. Of several lines with one text, the first counts.
    fn lines() -> &'static [KnownDigest]
        ensures { map line_of result.now ≡ lines };

    // Each digest has 32 places, and each is a byte.
    ghost digests: { IsTrue (are_digests lines) };
}
