//! Records of each kind where they may not come, and numbers that they may not have.

use crate::loads::is_refused;
use crate::streams::{Piece, stream};
use Piece::{Byte, Page, Word};
use dr_types::StreamFault;
use std::test::Fail;

const ROWS: &[(&[Piece], StreamFault)] = &[
    // The header, number by number.
    (
        &[Word(7), Word(1), Word(3), Word(0)],
        StreamFault::Version { said: 7 },
    ),
    (&[Word(0), Word(0)], StreamFault::Version { said: 0 }),
    (&[Word(3), Byte(0)], StreamFault::Version { said: 3 }),
    (
        &[Word(1), Word(0), Word(3), Word(0)],
        StreamFault::Pages { said: 0 },
    ),
    (
        &[Word(2), Word(16_385)],
        StreamFault::Pages { said: 16_385 },
    ),
    // Kinds that there are not.
    (
        &[Word(1), Word(1), Word(9), Word(0)],
        StreamFault::Kind { at: 16 },
    ),
    (
        &[Word(2), Word(1), Word(0), Word(0)],
        StreamFault::Kind { at: 16 },
    ),
    (
        &[Word(2), Word(1), Word(5), Word(0)],
        StreamFault::Kind { at: 16 },
    ),
    (
        &[
            Word(1),
            Word(1),
            Word(1),
            Word(1),
            Word(4),
            Word(0),
            Word(1),
        ],
        StreamFault::Kind { at: 24 },
    ),
    // Rounds.
    (
        &[Word(1), Word(1), Word(1), Word(0)],
        StreamFault::Place { at: 16 },
    ),
    (
        &[Word(1), Word(1), Word(1), Word(66)],
        StreamFault::Place { at: 16 },
    ),
    (
        &[Word(1), Word(1), Word(1), Word(2), Word(1), Word(2)],
        StreamFault::Place { at: 24 },
    ),
    (
        &[Word(2), Word(1), Word(1), Word(65), Word(1), Word(64)],
        StreamFault::Place { at: 24 },
    ),
    // Pages and zeros before any round.
    (
        &[Word(1), Word(1), Word(2), Word(0)],
        StreamFault::Place { at: 16 },
    ),
    (
        &[Word(2), Word(1), Word(4), Word(0), Word(1)],
        StreamFault::Place { at: 16 },
    ),
    // A page and zeros that there are not.
    (
        &[
            Word(1),
            Word(2),
            Word(1),
            Word(1),
            Word(2),
            Word(2),
            Page(1),
        ],
        StreamFault::Place { at: 24 },
    ),
    (
        &[
            Word(2),
            Word(2),
            Word(1),
            Word(1),
            Word(4),
            Word(2),
            Word(1),
        ],
        StreamFault::Place { at: 24 },
    ),
    (
        &[
            Word(2),
            Word(2),
            Word(1),
            Word(1),
            Word(4),
            Word(0),
            Word(0),
        ],
        StreamFault::Place { at: 24 },
    ),
    (
        &[
            Word(2),
            Word(2),
            Word(1),
            Word(1),
            Word(4),
            Word(1),
            Word(2),
        ],
        StreamFault::Place { at: 24 },
    ),
    // A page twice, and pages that fall.
    (
        &[
            Word(1),
            Word(2),
            Word(1),
            Word(1),
            Word(2),
            Word(1),
            Page(1),
            Word(2),
            Word(1),
            Page(1),
        ],
        StreamFault::Place { at: 4_128 },
    ),
    (
        &[
            Word(1),
            Word(2),
            Word(1),
            Word(1),
            Word(2),
            Word(1),
            Page(1),
            Word(2),
            Word(0),
            Page(1),
        ],
        StreamFault::Place { at: 4_128 },
    ),
    (
        &[
            Word(2),
            Word(3),
            Word(1),
            Word(1),
            Word(4),
            Word(0),
            Word(2),
            Word(4),
            Word(1),
            Word(2),
        ],
        StreamFault::Place { at: 36 },
    ),
    (
        &[
            Word(2),
            Word(3),
            Word(1),
            Word(1),
            Word(4),
            Word(0),
            Word(2),
            Word(2),
            Word(1),
            Page(1),
        ],
        StreamFault::Place { at: 36 },
    ),
    // Ends that count wrong.
    (
        &[Word(1), Word(1), Word(3), Word(1)],
        StreamFault::Count { said: 1, seen: 0 },
    ),
    (
        &[
            Word(2),
            Word(1),
            Word(1),
            Word(1),
            Word(4),
            Word(0),
            Word(1),
            Word(3),
            Word(0),
        ],
        StreamFault::Count { said: 0, seen: 1 },
    ),
    // A record after the end.
    (
        &[Word(1), Word(1), Word(3), Word(0), Word(1), Word(1)],
        StreamFault::After { at: 24 },
    ),
    // A fault of the place before the bytes that are missing.
    (
        &[Word(1), Word(1), Word(1), Word(1), Word(2), Word(1)],
        StreamFault::Place { at: 24 },
    ),
    (
        &[Word(1), Word(1), Word(1), Word(1), Word(2), Word(0)],
        StreamFault::Cut { at: 32 },
    ),
];

#[test]
fn each_fault_is_found_at_its_place(rt: HostRuntime) -> Result<(), Fail> {
    for &(pieces, fault) in ROWS {
        let bytes = stream(rt.alloc(), pieces)?;
        assert!(rt; is_refused(rt.alloc(), bytes.as_slice(), fault)?, "{fault}");
    }
    Ok(())
}
