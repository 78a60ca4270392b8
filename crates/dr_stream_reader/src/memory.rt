ghost use Rattle.std.specs.Prelude.{◌≡◌, ◌+◌, ◌*◌, ◌^◌, ◌<◌, ◌≤◌, IfOk, length, replicate};
ghost use Rattle.dr_stream_reader.specs.Images.{with_page, with_part, with_zeros};
ghost use Rattle.dr_stream_reader.specs.Records.{IsWholePage, part_of, reaches};

use crate::record::Record;
use dr_types::Memory;
use dr_types::limits::PAGE_BYTES;
use std::alloc::Global;

/// Pages of zeros: their memory comes zeroed, and isn't written here.
pub(crate) fn zeroed(alloc: Global, pages: u32) -> Result<Vec<u8>, Memory>
    ensures { IfOk result (λ image. image.items ≡ replicate (pages * 4096) 0) }
{
    Ok(vec![in alloc; 0; pages as usize * PAGE_BYTES]?)
}

/// Writes the bytes of a page.
fn write_page(image: &mut [u8], page: u32, bytes: &[u8])
    requires within { page * 4096 + 4096 ≤ length image.old }
    requires page { length bytes.now ≡ 4096 }
    ensures is { image.new ≡ with_page page bytes.now image.old }
    ensures len { length image.new ≡ length image.old }
{
    let at = page as usize * PAGE_BYTES;
    image[at..at + PAGE_BYTES].copy_from_slice(bytes);
}

/// Writes zeros over the pages from a first one on.
fn write_zeros(image: &mut [u8], first: u32, count: u32)
    requires few { first + count < 2 ^ 32 }
    requires within { (first + count) * 4096 ≤ length image.old }
    ensures is { image.new ≡ with_zeros first count image.old }
    ensures len { length image.new ≡ length image.old }
{
    let zeros = [0; PAGE_BYTES];
    for done in 0..count {
        write_page(image, first + done, &zeros);
    }
}

/// Writes what a record says.
pub(crate) fn write_record(image: &mut [u8], next: Record<'_>)
    requires few { reaches (part_of next) < 2 ^ 32 }
    requires within { reaches (part_of next) * 4096 ≤ length image.old }
    requires page { IsWholePage (part_of next) }
    ensures is { image.new ≡ with_part (part_of next.entry) image.old }
    ensures len { length image.new ≡ length image.old }
{
    match next {
        Record::Round(_) => {}
        Record::Page { page, bytes } => write_page(image, page, bytes),
        Record::Zeros { first, count } => write_zeros(image, first, count),
    }
}
