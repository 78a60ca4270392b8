use std::marker::Brand;

/// What one run is about, as plain data that contracts alone see. A value whose type has the name
/// belongs to that run, wherever it was kept meanwhile.
pub trait Name: Send + Sync {
    ghost use Rattle.std.specs.Prelude.{ℕ, List};
    ghost use Rattle.atomic_table.specs.Seated.{TableId};
    ghost use Rattle.dr_types.specs.declared.guest.Guest.{Guest};
    ghost use Rattle.dr_types.specs.Ports.{Ports};

    // The guest that is run.
    ghost guest: { Guest };

    // The ring of each vCPU, in the order of the vCPUs.
    ghost rings: { List TableId };

    // What the outlet tells of its ports when it is handed in.
    ghost ports: { Ports };

    // The outlet's count of faults then.
    ghost faults: { ℕ };
}

// Any values: where a function is called at this type, the call picks them.
impl Name for Brand {
    ghost use Rattle.std.specs.Prelude.{[]};
    ghost use Rattle.dr_types.specs.Ports.{silent};

    ghost guest = { record {
      version = 0;
      settings = record {
        ring = 0;
        reserve = 0;
        buffer = 0;
        pace = 0;
        threshold = 0;
        rounds = 0;
        quota = 0;
      };
      slots = [];
      scripts = [];
    } };

    ghost rings = { [] };

    ghost ports = { silent };

    ghost faults = { 0 };
}
