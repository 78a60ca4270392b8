ghost use Rattle.std.specs.Prelude.{◌≡◌};

use crate::before::{Before, read_on};
use crate::found::Found;
use crate::header_texts::{OtherByte, other_byte, write_header};
use crate::record_texts::Spot;
use dr_stream_reader::StreamReader;
use dr_types::{Memory, StreamFault, Text};
use std::alloc::Global;
use std::fmt;

/// Where the fault is.
#[derive(Clone, Copy, Debug, PartialEq, Eq)]
enum Scene {
    /// In the header; with the first byte that is another, where there is one.
    Header(Option<OtherByte>),
    /// In a record.
    Record(Spot),
    /// The bytes don't have this fault.
    Unseen,
}

/// What helps to find the damage in a stream: its fault, where the record with it begins, what is
/// there, what may come there, and the last record before it. Printed, it is one line for a person,
/// without an end of line.
#[derive(Clone, Copy, Debug, PartialEq, Eq)]
pub struct Trouble {
    /// The fault.
    pub fault: StreamFault,
    scene: Scene,
}

/// The bytes from a place on; none where it lies outside.
fn bytes_from(bytes: &[u8], at: u64) -> &[u8] {
    bytes.get(at as usize..).unwrap_or(b"")
}

/// The scene where a reader comes to this fault of the bytes.
fn record_scene(bytes: &[u8], reader: &mut StreamReader<'_>, fault: StreamFault) -> Scene {
    let before = read_on(reader, bytes.len());
    if before.fault != Some(fault) {
        return Scene::Unseen;
    }
    let at = reader.at();
    Scene::Record(Spot {
        at,
        found: Found::in_front_of(bytes_from(bytes, at)),
        standing: reader.standing(),
        last: before.last,
    })
}

/// The scene of a fault of these bytes.
fn scene_of(bytes: &[u8], fault: StreamFault) -> Scene {
    match StreamReader::new(bytes) {
        Ok(mut reader) => record_scene(bytes, &mut reader, fault),
        Err(why) if why == fault => Scene::Header(other_byte(bytes)),
        Err(_) => Scene::Unseen,
    }
}

impl Trouble {
    /// What helps to find this fault of these bytes. Any bytes and any fault may be given: less is
    /// said of a fault that isn't theirs. It takes no memory.
    pub fn of(bytes: &[u8], fault: StreamFault) -> Trouble
        ensures { result.fault ≡ fault }
    {
        Trouble {
            fault,
            scene: scene_of(bytes, fault),
        }
    }

    /// The line as a text.
    pub fn text(&self, alloc: Global) -> Result<Text, Memory> {
        let text = format!(in alloc; "{self}")?;
        Ok(Text::from_string(text))
    }
}

impl fmt::Display for Trouble {
    fn fmt<W: fmt::Write>(&self, f: &mut fmt::Formatter<W>) -> fmt::Result {
        let fault = self.fault;
        match self.scene {
            Scene::Header(other) => write_header(f, fault, other),
            Scene::Record(spot) => spot.write_fault(f, fault),
            Scene::Unseen => write!(f, "{fault}"),
        }
    }
}
