ghost use Rattle.std.specs.Prelude.{◌≡◌, ◌+◌, ◌≤◌, ◌<◌, OnOk, OnErr, IfErr, min, length};
ghost use Rattle.dr_types.specs.Ports.{put_at};
ghost use Rattle.dr_command_io.specs.Puts.{IsFault, PutsPart};

use dr_command_io::{PutFault, put};
use dr_io::{Outlet, Port};
use dr_types::limits::PAGE_BYTES;

/// The place after the page that begins at this place, of so many bytes.
fn page_end(at: usize, len: usize) -> usize
    requires { at < len }
    ensures is { result ≡ min len (at + 4096) }
    ensures more { at < result }
    ensures within { result ≤ len }
{
    len.min(at.saturating_add(PAGE_BYTES))
}

/// Puts the bytes of all pages on Image, page by page.
#[tactic(auto, using(crate::proofs::Paging::no_page, crate::proofs::Paging::all_pages))]
pub fn put_pages<O: Outlet>(bytes: &[u8], out: &mut O) -> Result<(), PutFault>
    ensures done { OnOk result (O.told out.new ≡ put_at Port.Image bytes.now (O.told out.old)) }
    ensures cut { OnErr result (PutsPart Port.Image bytes.now (O.told out.old) (O.told out.new)) }
    ensures later { O.faults out.old ≤ O.faults out.new }
    ensures fault { IfErr result (IsFault (O.faults out.old) (O.faults out.new)) }
    ensures outlet { IfErr result (λ why. why ≡ PutFault.Outlet) }
{
    let mut at = 0;
    while at < bytes.len() {
        let end = page_end(at, bytes.len());
        put(out, Port::Image, &bytes[at..end])?;
        at = end;
    }
    Ok(())
}
