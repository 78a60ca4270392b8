ghost use Rattle.std.specs.Prelude.{◌≡◌, ◌≢◌, ◌≤◌, OnOk, OnErr, IfOk, IfErr, is_some};
ghost use Rattle.dr_types.specs.Ports.{put_all, PutsCut, Rose};
ghost use Rattle.dr_command_io.specs.Puts.{IsFault};
ghost use Rattle.dr_command_io.specs.Taking.{IfTold, Takes};
ghost use Rattle.dr_loader.specs.Loads.{BytesSay, EndsLoaded, EndsRefused, IsDamaged, IsLoadable};
ghost use Rattle.dr_loader.specs.Loads.{LoadSays, PutSays, is_bad_stream, most_stream_bytes};
ghost use Rattle.dr_loader.specs.Loads.{status_of_fault};
ghost use Rattle.dr_loader.specs.Puts.{line_of, puts_of};

use crate::line::loaded_line;
use crate::pages::put_pages;
use dr_command_io::{PutFault, put, read_whole, status_of_puts};
use dr_io::{Outlet, Port, Source};
use dr_stream_explain::Trouble;
use dr_stream_reader::{Image, read_stream};
use dr_types::limits::MOST_STREAM_BYTES;
use dr_types::{Status, StreamFault, Text};
use std::alloc::Global;

/// How the command `load` ended.
#[derive(Clone, Copy, Debug, PartialEq, Eq, Drop)]
pub struct Loaded {
    pub status: Status,
    /// What helps to find the damage in a stream that is refused.
    pub trouble: Option<Trouble>,
}

/// Puts an image page by page, and then its line.
fn put_loaded<O: Outlet>(image: &Image, line: &Text, out: &mut O) -> Result<Status, PutFault>
    requires { line.now ≡ line_of image.now.pages image.now.records }
    ensures whole { IfOk result (λ s. s ≡ Status.Done) }
    ensures done { OnOk result (O.told out.new ≡ put_all (puts_of image.now) (O.told out.old)) }
    ensures cut { OnErr result (PutsCut (puts_of image.now) (O.told out.old) (O.told out.new)) }
    ensures later { O.faults out.old ≤ O.faults out.new }
    ensures fault { IfErr result (IsFault (O.faults out.old) (O.faults out.new)) }
    ensures outlet { IfErr result (λ why. why ≡ PutFault.Outlet) }
{
    put_pages(image.bytes.as_slice(), out)?;
    put(out, Port::Report, line.as_bytes())?;
    Ok(Status::Done)
}

/// Puts an image, once the memory for its line is there.
#[tactic(auto, using(crate::proofs::Answering::put_says, crate::proofs::Answering::put_leaves))]
fn load_image<O: Outlet>(alloc: Global, image: &Image, out: &mut O) -> Status
    ensures says { PutSays result image.now (O.told out.old) (O.told out.new) }
    ensures outlet { result ≡ Status.Outlet → Rose (O.faults out.old) (O.faults out.new) }
    ensures unput { result ≢ Status.Done → result ≢ Status.Outlet → out.new ≡ out.old }
{
    match loaded_line(alloc, image.pages, image.records) {
        Ok(line) => status_of_puts(put_loaded(image, &line, out)),
        Err(_) => Status::Memory,
    }
}

/// The status of bytes that are no stream.
fn status_of(why: StreamFault) -> Status
    ensures { result ≡ status_of_fault why }
{
    match why {
        StreamFault::Memory => Status::Memory,
        _ => Status::BadStream(why),
    }
}

/// What helps to find a fault of these bytes.
fn trouble_of(bytes: &[u8], why: StreamFault) -> Option<Trouble>
    ensures { is_some result ≡ is_bad_stream (status_of_fault why) }
{
    match why {
        StreamFault::Memory => None,
        _ => Some(Trouble::of(bytes, why)),
    }
}

/// Loads bytes as a stream.
fn load_bytes<O: Outlet>(alloc: Global, bytes: &[u8], out: &mut O) -> Loaded
    ensures says { BytesSay result.status bytes.now (O.told out.old) (O.told out.new) }
    ensures trouble { is_some result.trouble ≡ is_bad_stream result.status }
    ensures outlet { result.status ≡ Status.Outlet → Rose (O.faults out.old) (O.faults out.new) }
    ensures unput { result.status ≢ Status.Done → result.status ≢ Status.Outlet
        → out.new ≡ out.old }
{
    match read_stream(alloc, bytes) {
        Ok(image) => Loaded {
            status: load_image(alloc, &image, out),
            trouble: None,
        },
        Err(why) => Loaded {
            status: status_of(why),
            trouble: trouble_of(bytes, why),
        },
    }
}

/// Reads a migration stream from the source to its end, and puts its image on Image, page by page,
/// and then a line on Report. All memory is taken before the first put, and after a put that failed
/// nothing more is put.
#[tactic(auto, using(crate::proofs::Answering::load_takes))]
pub fn load<S: Source, O: Outlet>(alloc: Global, source: &mut S, out: &mut O) -> Loaded
    ensures says { LoadSays result.status (S.remaining source.old)
        (O.told out.old) (O.told out.new) }
    ensures trouble { is_some result.trouble ≡ is_bad_stream result.status }
    ensures takes { Takes most_stream_bytes result.status
        (S.remaining source.old) (S.remaining source.new) }
    ensures ends { IfTold (S.remaining source.old) (λ bytes.
        IsLoadable bytes → EndsLoaded result.status) }
    ensures bad { IfTold (S.remaining source.old) (λ bytes.
        IsDamaged bytes → EndsRefused result.status) }
    ensures outlet { result.status ≡ Status.Outlet → Rose (O.faults out.old) (O.faults out.new) }
    ensures source { result.status ≡ Status.Source
        → Rose (S.faults source.old) (S.faults source.new) }
    ensures unput { result.status ≢ Status.Done → result.status ≢ Status.Outlet
        → out.new ≡ out.old }
{
    match read_whole(alloc, source, MOST_STREAM_BYTES) {
        Ok(bytes) => load_bytes(alloc, bytes.as_slice(), out),
        Err(status) => Loaded {
            status,
            trouble: None,
        },
    }
}
