//! Escapes of lone surrogates in JSON texts: JavaScript writes them, and they stand for U+FFFD.
ghost use Rattle.std.specs.Prelude.{◌≡◌, ◌++◌, ◌<◌, ◌≤◌, codes, drop, length, map, take, true};
ghost use Rattle.lsp.specs.Surrogates as spec;

const HEX_DIGITS: &[u8] = b"0123456789abcdefABCDEF";

/// Whether bytes begin with one of each of these in turn.
fn begin_with(bytes: &[u8], sets: &[&[u8]]) -> bool
    ensures { result ≡ spec.begin_with (map (λ s. s.now) sets.now) bytes.now }
{
    let (mut wanted, mut left) = (sets, bytes);
    while let [set, more @ ..] = wanted {
        match left {
            [byte, rest @ ..] if set.contains(byte) => left = rest,
            _ => return false,
        }
        wanted = more;
    }
    true
}

/// Whether bytes behind a backslash escape a surrogate that begins a pair.
fn is_first_half(bytes: &[u8]) -> bool
    ensures { result ≡ spec.begin_with spec.first_half bytes.now }
{
    let sets: [&[u8]; 5] = [b"u", b"dD", b"89abAB", HEX_DIGITS, HEX_DIGITS];
    begin_with(bytes, &sets)
}

/// Whether they escape one that ends a pair.
fn is_second_half(bytes: &[u8]) -> bool
    ensures { result ≡ spec.begin_with spec.second_half bytes.now }
{
    let sets: [&[u8]; 5] = [b"u", b"dD", b"cdefCDEF", HEX_DIGITS, HEX_DIGITS];
    begin_with(bytes, &sets)
}

/// Whether they escape a pair.
fn is_pair(bytes: &[u8]) -> bool
    ensures { result ≡ spec.is_surrogate_pair bytes.now }
{
    let (hex, low): (&[u8], &[u8]) = (HEX_DIGITS, b"cdefCDEF");
    let sets: [&[u8]; 11] = [
        b"u", b"dD", b"89abAB", hex, hex, b"\\", b"u", b"dD", low, hex, hex,
    ];
    begin_with(bytes, &sets)
}

/// Whether they escape a surrogate.
#[tactic(auto, using(crate::proofs::Escapes::half_within))]
fn is_half(bytes: &[u8]) -> bool
    ensures is { result ≡ spec.is_surrogate_half bytes.now }
    ensures within { result ≡ true → 5 ≤ length bytes.now }
{
    is_first_half(bytes) || is_second_half(bytes)
}

/// Writes that of U+FFFD in the place of the escape of a surrogate.
fn write_replacement(bytes: &mut [u8])
    requires { 5 ≤ length bytes.old }
    ensures written { take 5 bytes.new ≡ codes "ufffd" }
    ensures rest { drop 5 bytes.new ≡ drop 5 bytes.old }
{
    bytes[..5].copy_from_slice(b"ufffd");
}

/// Mends the escape behind a backslash, and tells how many bytes it takes; there may be fewer.
#[tactic(auto, using(crate::proofs::Escapes::mended_pair, crate::proofs::Escapes::mended_half, crate::proofs::Escapes::mended_other))]
fn mend_escape(bytes: &mut [u8]) -> usize
    ensures mended { spec.mended_behind (spec.unicode_escape bytes.old) bytes.old
        ≡ take result bytes.new ++ spec.surrogates_mended (drop result bytes.new) }
    ensures few { result ≤ 11 }
{
    if is_pair(bytes) {
        return 11;
    }
    if is_half(bytes) {
        write_replacement(bytes);
        return 5;
    }
    1
}

/// Mends the first byte with its escape, and tells how many bytes these take.
fn mend_first(bytes: &mut [u8]) -> usize
    requires { 0 < length bytes.old }
    ensures mended { spec.surrogates_mended bytes.old
        ≡ take result bytes.new ++ spec.surrogates_mended (drop result bytes.new) }
    ensures few { result ≤ 12 }
    ensures many { 0 < result }
{
    if bytes[0] != b'\\' {
        return 1;
    }
    1 + mend_escape(&mut bytes[1..])
}

/// Makes each escape of a lone surrogate in a JSON text `\ufffd`.
pub(crate) fn mend(bytes: &mut [u8])
    ensures { bytes.new ≡ spec.surrogates_mended bytes.old }
{
    let mut at = 0;
    while at < bytes.len() {
        at += mend_first(&mut bytes[at..]);
    }
}
