//! Streams, piece by piece.

use std::alloc::{AllocError, Global};

/// What stands in a stream after its magic.
#[derive(Clone, Copy)]
pub enum Piece {
    /// A number in four bytes.
    Word(u32),
    /// A page of this byte.
    Page(u8),
    /// One byte.
    Byte(u8),
}

use Piece::{Byte, Page, Word};

/// A stream of version 1 and one page, which has no record.
pub const EMPTY: &[Piece] = &[Word(1), Word(1), Word(3), Word(0)];

/// A stream of version 2 and one page, which is said to be zero.
pub const ZERO: &[Piece] = &[
    Word(2),
    Word(1),
    Word(1),
    Word(1),
    Word(4),
    Word(0),
    Word(1),
    Word(3),
    Word(1),
];

/// A stream of version 1 and two pages, of which the second comes in two rounds.
pub const PAINTED: &[Piece] = &[
    Word(1),
    Word(2),
    Word(1),
    Word(1),
    Word(2),
    Word(0),
    Page(5),
    Word(2),
    Word(1),
    Page(6),
    Word(1),
    Word(2),
    Word(2),
    Word(1),
    Page(7),
    Word(3),
    Word(3),
];

/// A stream of version 2 and four pages in the first round and the last that there can be: a page
/// is replaced by another, and zeros come over two.
pub const ROUNDS: &[Piece] = &[
    Word(2),
    Word(4),
    Word(1),
    Word(1),
    Word(2),
    Word(1),
    Page(7),
    Word(2),
    Word(3),
    Page(8),
    Word(1),
    Word(65),
    Word(4),
    Word(0),
    Word(2),
    Word(2),
    Word(2),
    Page(9),
    Word(3),
    Word(4),
];

/// Adds a piece.
fn push_piece(bytes: &mut Vec<u8>, piece: Piece) -> Result<(), AllocError> {
    match piece {
        Word(number) => bytes.extend_from_slice(&number.to_le_bytes()),
        Page(byte) => bytes.extend_from_slice(&[byte; 4096]),
        Byte(byte) => {
            bytes.push(byte)?;
            Ok(())
        }
    }
}

/// The bytes of a stream.
pub fn stream(alloc: Global, pieces: &[Piece]) -> Result<Vec<u8>, AllocError> {
    let mut bytes = Vec::new(alloc);
    bytes.extend_from_slice(b"DRSTREAM")?;
    for piece in pieces {
        push_piece(&mut bytes, *piece)?;
    }
    Ok(bytes)
}
