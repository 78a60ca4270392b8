ghost use Rattle.std.specs.Prelude.{◌≡◌, ◌≢◌, ◌*◌, IfOk, IfErr, OnOk, length};
ghost use Rattle.dr_stream_law.specs.Faults.{HasFault};
ghost use Rattle.dr_stream_reader.specs.Reading.{IsReaderOf, ReadsNext, SaysNext};
ghost use Rattle.dr_stream_reader.specs.Images.{HasLoaded, HasLoadedAll, IsImageOf};

use crate::memory::{write_record, zeroed};
use crate::reader::StreamReader;
use crate::record::Record;
use dr_types::{Bytes, Listed, StreamFault};
use std::alloc::Global;

/// What a migration stream loads as.
#[derive(Drop)]
pub struct Image {
    /// How many pages there are.
    pub pages: u32,
    /// The bytes of all pages, in the order of their numbers.
    pub bytes: Bytes,
    /// How many page and zero records the stream has.
    pub records: u32,
}

/// The next record of these bytes.
fn next_of<'a>(
    bytes: &[u8],
    reader: &mut StreamReader<'a>,
) -> Result<Option<Record<'a>>, StreamFault>
    requires { IsReaderOf bytes.now reader.old }
    ensures says { SaysNext reader.old result }
    ensures reads { ReadsNext reader.old result reader.new }
    ensures fault { IfErr result (HasFault bytes.now) }
{
    reader.next()
}

/// Loads the records that are still to be read.
#[tactic(auto, using(crate::proofs::Loads::for_load_records))]
fn load_records(
    bytes: &[u8],
    reader: &mut StreamReader<'_>,
    image: &mut [u8],
) -> Result<(), StreamFault>
    requires { HasLoaded bytes.now reader.old image.old }
    ensures all { OnOk result (HasLoadedAll bytes.now reader.new image.new) }
    ensures fault { IfErr result (HasFault bytes.now) }
    ensures len { length image.new ≡ length image.old }
{
    while let Some(next) = next_of(bytes, reader)? {
        write_record(image, next);
    }
    Ok(())
}

/// The first fault of bytes that are no stream. Only the heads of records are looked at.
#[tactic(auto, using(crate::proofs::Loads::reads_on, crate::proofs::Loads::reader_at_start))]
fn refuse(bytes: &[u8]) -> Result<(), StreamFault>
    ensures { IfErr result (HasFault bytes.now) }
{
    let mut reader = StreamReader::new(bytes)?;
    while let Some(_) = next_of(bytes, &mut reader)? {}
    Ok(())
}

/// Loads a stream into memory that comes zeroed.
#[tactic(auto, using(crate::proofs::Loads::for_load))]
fn load(alloc: Global, bytes: &[u8]) -> Result<Image, StreamFault>
    ensures image { IfOk result (λ image. IsImageOf bytes.now image) }
    ensures fault { IfErr result (λ why. why ≢ StreamFault.Memory → HasFault bytes.now why) }
{
    let mut reader = StreamReader::new(bytes)?;
    let mut image = match zeroed(alloc, reader.standing().pages) {
        Ok(image) => image,
        Err(_) => return Err(StreamFault::Memory),
    };
    load_records(bytes, &mut reader, image.as_mut_slice())?;
    let standing = reader.standing();
    Ok(Image {
        pages: standing.pages,
        bytes: Listed::from_vec(image),
        records: standing.records,
    })
}

/// The image that a migration stream loads as, or the first fault of bytes that are none.
pub fn read_stream(alloc: Global, bytes: &[u8]) -> Result<Image, StreamFault>
    ensures image { IfOk result (λ image. IsImageOf bytes.now image) }
    ensures fault { IfErr result (λ why. why ≢ StreamFault.Memory → HasFault bytes.now why) }
{
    // A damaged stream of few bytes may claim the most pages: nothing is taken for them before all
    // records are known to be good.
    refuse(bytes)?;
    load(alloc, bytes)
}
