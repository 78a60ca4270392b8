ghost use Rattle.std.specs.Prelude.{◌≡◌, ◌≤◌, length, take, IfOk, IfErr, OnOk, Some};
ghost use Rattle.dr_stream_law.specs.Faults.{has_magic, header_fault, is_known, is_page_count};
ghost use Rattle.dr_stream_law.specs.Faults.{number_at, numbers_fault, pages_fault};
ghost use Rattle.dr_stream_reader.specs.Headers.{HasHeader, SaysPages, SaysVersion};

use crate::bytes::number_at;
use crate::standing::Standing;
use dr_types::StreamFault;
use dr_types::limits::MOST_PAGES;

/// What a stream begins with.
const MAGIC: &[u8] = b"DRSTREAM";

/// The greatest version that is known.
const NEWEST: u32 = 2;

/// The first bytes, at most as many.
fn front(bytes: &[u8], most: usize) -> &[u8]
    ensures { result.now ≡ take most bytes.now }
{
    if most < bytes.len() {
        &bytes[..most]
    } else {
        bytes
    }
}

/// The bytes begin as a stream does, as far as they go.
fn has_magic(bytes: &[u8]) -> bool
    ensures { result ≡ has_magic bytes.now }
{
    front(bytes, MAGIC.len()) == front(MAGIC, bytes.len())
}

/// The version can be read.
fn is_known(version: u32) -> bool
    ensures { result ≡ is_known version }
{
    1 <= version && version <= NEWEST
}

/// A stream may have this number of pages.
fn is_page_count(pages: u32) -> bool
    ensures { result ≡ is_page_count pages }
{
    1 <= pages && pages <= MOST_PAGES
}

/// The input ends here, and should not.
pub(crate) fn cut(bytes: &[u8]) -> StreamFault
    ensures { result ≡ StreamFault.Cut (length bytes.now) }
{
    StreamFault::Cut {
        at: bytes.len() as u64,
    }
}

/// The version that a header says.
#[tactic(auto, using(crate::proofs::Headers::version_passes))]
fn read_version(bytes: &[u8]) -> Result<u32, StreamFault>
    requires { header_fault bytes.now ≡ numbers_fault bytes.now }
    ensures version { IfOk result (SaysVersion bytes.now) }
    ensures passed { OnOk result (header_fault bytes.now ≡ pages_fault bytes.now) }
    ensures fault { IfErr result (λ why. header_fault bytes.now ≡ Some why) }
{
    if bytes.len() < 12 {
        return Err(cut(bytes));
    }
    let said = number_at(bytes, 8);
    if !is_known(said) {
        return Err(StreamFault::Version { said });
    }
    Ok(said)
}

/// The number of pages that a header says.
fn read_pages(bytes: &[u8]) -> Result<u32, StreamFault>
    requires { header_fault bytes.now ≡ pages_fault bytes.now }
    ensures pages { IfOk result (SaysPages bytes.now) }
    ensures fault { IfErr result (λ why. header_fault bytes.now ≡ Some why) }
{
    if bytes.len() < 16 {
        return Err(cut(bytes));
    }
    let said = number_at(bytes, 12);
    if !is_page_count(said) {
        return Err(StreamFault::Pages { said });
    }
    Ok(said)
}

/// What a reader keeps of a header; the header's first fault, where it has one.
#[tactic(auto, using(crate::proofs::Headers::magic_passes))]
pub(crate) fn read_header(bytes: &[u8]) -> Result<Standing, StreamFault>
    ensures header { IfOk result (HasHeader bytes.now) }
    ensures fault { IfErr result (λ why. header_fault bytes.now ≡ Some why) }
{
    if !has_magic(bytes) {
        return Err(StreamFault::Magic);
    }
    let version = read_version(bytes)?;
    let pages = read_pages(bytes)?;
    Ok(Standing::start(version, pages))
}
