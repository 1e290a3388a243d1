//! Cuts position files at line ends, into pieces that are read by themselves.
ghost use Rattle.std.specs.Prelude.{◌≡◌, ◌≤◌, IfOk, IfSome, drop, false, flat_map, length, max, take, true, vec_len};
ghost use Rattle.span_csv.specs.Cuts.{BeginsWithNoMark, EndsInLineFeed, has_quote};
ghost use Rattle.span_csv.specs.Records.{records_of};

use memchr::memchr;
use std::alloc::{AllocError, Global};

// The minimum average size of the pieces of a file that is cut, in bytes.
const PIECE_BYTES: usize = 65536;

// The first byte of a byte order mark.
const MARK: u8 = 0xEF;

// Returns whether some byte is a double quote.
fn has_quote(bytes: &[u8]) -> bool
    ensures { result ≡ has_quote bytes.now }
{
    memchr(b'"', bytes).is_some()
}

// Returns whether a piece may begin with these bytes: there is a first byte, and it does not begin a byte order mark.
fn may_begin(bytes: &[u8]) -> bool
    ensures { result ≡ true → BeginsWithNoMark bytes.now }
{
    match bytes.first() {
        Some(first) => *first != MARK,
        None => false,
    }
}

// Returns the index of the first possible cut from `least` on: after a line feed, and where a piece may begin.
fn cut_from(bytes: &[u8], least: usize) -> Option<usize>
    requires { least ≤ length bytes.now }
    ensures within { IfSome result (λ at. at ≤ length bytes.now) }
    ensures line { IfSome result (λ at. EndsInLineFeed (take at bytes.now)) }
    ensures unmarked { IfSome result (λ at. BeginsWithNoMark (drop at bytes.now)) }
{
    let mut at = least;
    while let Some(line) = memchr(b'\n', &bytes[at..]) {
        at += line + 1;
        if may_begin(&bytes[at..]) {
            return Some(at);
        }
    }
    None
}

// Cuts bytes without a double quote into `count` pieces of about equal size, or into fewer if their lines are long.
fn cut_plain<'a>(alloc: Global, bytes: &'a [u8], count: usize) -> Result<Vec<&'a [u8]>, AllocError>
    requires count { 1 ≤ count }
    requires plain { has_quote bytes.now ≡ false }
    ensures records { IfOk result (λ pieces. flat_map (λ piece. records_of piece.now) pieces.items ≡ records_of bytes.now) }
    ensures bytes { IfOk result (λ pieces. flat_map (λ piece. piece.now) pieces.items ≡ bytes.now) }
    ensures count { IfOk result (λ pieces. vec_len pieces ≤ count) }
{
    let mut pieces = Vec::new(alloc);
    let mut left = bytes;
    while pieces.len() + 1 < count {
        let Some(at) = cut_from(left, left.len() / (count - pieces.len())) else {
            break;
        };
        let (piece, rest) = left.split_at(at);
        pieces.push(piece)?;
        left = rest;
    }
    pieces.push(left)?;
    Ok(pieces)
}

/// Cuts a position file into at least one and at most `most` pieces. Each record is in one piece, and the records of
/// the pieces, joined in order, are the records of the file. A file with a double quote is one piece, since a line feed
/// inside quotes does not end a record.
pub fn cut_at_lines<'a>(
    alloc: Global,
    bytes: &'a [u8],
    most: usize,
) -> Result<Vec<&'a [u8]>, AllocError>
    ensures records { IfOk result (λ pieces. flat_map (λ piece. records_of piece.now) pieces.items ≡ records_of bytes.now) }
    ensures bytes { IfOk result (λ pieces. flat_map (λ piece. piece.now) pieces.items ≡ bytes.now) }
    ensures count { IfOk result (λ pieces. vec_len pieces ≤ max most 1) }
{
    let count = most.min(bytes.len() / PIECE_BYTES);
    if count < 2 || has_quote(bytes) {
        return Vec::from_slice(alloc, &[bytes]);
    }
    cut_plain(alloc, bytes, count)
}
