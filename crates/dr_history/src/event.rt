use dr_types::{Listed, PageList, Why};

/// One atomic action of a run.
#[derive(Debug, Drop, PartialEq)]
pub enum Event {
    /// Logging begins, at this time in microseconds.
    Start {
        at: u64,
    },
    /// vCPU v executes its op number i: it loads the eight bytes at an address of a space.
    Read {
        v: u32,
        i: u32,
        space: u32,
        addr: u64,
        value: u64,
    },
    /// vCPU v stores the low `len` bytes of a value at an address of a space, least first (ops `w`
    /// and `s`).
    Write {
        v: u32,
        i: u32,
        space: u32,
        addr: u64,
        len: u32,
        value: u64,
    },
    /// vCPU v fills a page with one byte.
    Paint {
        v: u32,
        i: u32,
        page: u32,
        byte: u8,
    },
    /// vCPU v executes an op without memory (ops `a` and `nap`).
    Local {
        v: u32,
        i: u32,
    },
    /// vCPU v executes its halt.
    Halted {
        v: u32,
        i: u32,
    },
    /// vCPU v opens its entry number k: the first write into a protected page.
    Opened {
        v: u32,
        k: u64,
        page: u32,
    },
    /// A page that may be written is cached for vCPU v.
    Filled {
        v: u32,
        page: u32,
    },
    /// Entry k of vCPU v is in its ring.
    Pushed {
        v: u32,
        k: u64,
    },
    /// vCPU v leaves the guest.
    Exited {
        v: u32,
        why: Why,
    },
    /// The entries `from` to `to - 1` of vCPU v were harvested, and are handed back.
    Deposited {
        v: u32,
        from: u64,
        to: u64,
    },
    /// Entry k of vCPU v is cleared in its ring, and its page is protected.
    Reset {
        v: u32,
        k: u64,
    },
    /// All cached permissions are dropped; the pages reset since the last flush become dirty.
    Flushed,
    /// Round r is asked for: a synchronisation.
    Asked {
        r: u32,
    },
    /// Round r is answered at this time, with all dirty pages in rising order.
    Synced {
        r: u32,
        at: u64,
        pages: PageList,
    },
    /// A page is copied for round r.
    Copied {
        r: u32,
        page: u32,
    },
    /// vCPU v is to sleep this many microseconds at its next exit with a full ring.
    Throttled {
        v: u32,
        us: u64,
    },
    /// The guest is stopped.
    Stopped,
    /// The destination takes over.
    Switched,
}

/// Events in their order.
pub type EventList = Listed<Event>;
