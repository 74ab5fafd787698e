//! What two texts begin with.

ghost use Rattle.std.specs.Prelude.{◌≡◌, ◌≤◌, ◌<◌, IsTrue, length, take};
ghost use Rattle.rust_lexer.specs.Inner as inner;

use crate::cut::token_len;
use crate::depth::past_gap;
use crate::stops::Block;

fn is_brace(b: u8) -> bool
    ensures { result ≡ inner.is_brace_byte b }
{
    matches!(b, b'{' | b'}')
}

/// Whether two texts have the same bytes from one place up to another.
fn is_same_between(ours: &[u8], theirs: &[u8], from: usize, to: usize) -> bool
    requires order { from ≤ to }
    requires within { to ≤ length ours.now }
    ensures { IsTrue result → take from theirs.now ≡ take from ours.now
        → take to theirs.now ≡ take to ours.now }
{
    to <= theirs.len() && ours[from..to] == theirs[from..to]
}

/// The place of a brace that is a token of a text, at most this, where another text has the same bytes up to and with
/// it; 0 where there is none. It is the last but for those in the token that holds this place.
pub(crate) fn common_prefix(ours: &[u8], theirs: &[u8], most: usize) -> usize
    ensures brace { 0 < result → inner.IsCommon ours.now theirs.now result }
    ensures most { result ≤ most }
{
    let mut found = 0;
    let mut count = 0;
    let mut until = 0;
    let mut block = Block::empty();
    'tokens: while count < ours.len() && count <= most {
        let first = ours[count];
        if is_brace(first) {
            if !is_same_between(ours, theirs, found, count + 1) {
                return found;
            }
            found = count;
        }
        count += 1 + token_len(first, &ours[count + 1..]);
        count = past_gap(ours, count, &mut until, &mut block);
    }
    found
}
