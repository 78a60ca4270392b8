//! What bytes say as a migration stream, and that a history's says the destination's memory.
#![tactic(auto)]

ghost use Rattle.std.specs.Prelude.{ℕ, List, [], ◌∷◌};
ghost use Rattle.dr_types.specs.declared.guest.Guest.{Guest};
ghost use Rattle.dr_history.specs.declared.event.Event.{Event};
ghost use Rattle.dr_history.specs.Memory.{filled};
ghost use Rattle.dr_stream_law.specs.Faults.{FaultOnce, FaultOrStream};
ghost use Rattle.dr_stream_law.specs.Loading.{IsStream, StreamLoads, LoadsOnce};
ghost use Rattle.dr_stream_law.specs.Samples.{empty_stream, miscounted_stream, painted_stream};
ghost use Rattle.dr_stream_law.specs.Samples.{zero_stream};

/// Where a valid guest has switched over legally, the stream loads as exactly the destination's
/// memory.
pub fn stream_loads()
    ensures { (guest : Guest) (past : List Event) → StreamLoads guest past }
{}

/// Bytes load as one image only, by one number of records.
pub fn loads_once()
    ensures { (bytes : List ℕ) → LoadsOnce bytes }
{}

/// Bytes have one first fault at most.
pub fn fault_once()
    ensures { FaultOnce }
{}

/// Bytes that have a fault are no stream.
pub fn fault_or_stream()
    ensures { FaultOrStream }
{}

/// A header and an end load as a page of zeros, a round and a page record between them as that
/// page, and in version 2 a round and a record of zeros as a page of zeros. In version 1 those
/// bytes are no stream, and with an end that counts wrong none are.
pub fn samples()
    ensures empty { IsStream empty_stream (filled 0 ∷ []) 0 }
    ensures painted { IsStream painted_stream (filled 7 ∷ []) 1 }
    ensures zero { IsStream (zero_stream 2) (filled 0 ∷ []) 1 }
    ensures old { (image : List (List ℕ)) (n : ℕ) → IsStream (zero_stream 1) image n → ⊥ }
    ensures miscounted { (image : List (List ℕ)) (n : ℕ) → IsStream miscounted_stream image n → ⊥ }
{}
