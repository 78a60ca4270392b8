//! The limits of a guest file and of the commands' inputs.

/// How many vCPUs a guest has at most.
pub const MOST_VCPUS: usize = 32;

/// How many slots a guest has at most.
pub const MOST_SLOTS: usize = 32;

/// The greatest slot id.
pub const GREATEST_SLOT_ID: u32 = 65_535;

/// How many pages all slots have together at most.
pub const MOST_PAGES: u32 = 16_384;

/// How often pages may be copied at most: the pages times one more than the rounds.
pub const MOST_COPIES: u64 = 262_144;

/// The least size of a ring, in entries.
pub const LEAST_RING: u32 = 4;

/// The greatest size of a ring, in entries.
pub const GREATEST_RING: u32 = 65_536;

/// The greatest reserve of a ring, in entries.
pub const GREATEST_RESERVE: u32 = 65_535;

/// The greatest log buffer of a vCPU, in entries.
pub const GREATEST_BUFFER: u32 = 512;

/// How many ops all scripts have together at most, with each repetition written out.
pub const MOST_OPS: u64 = 200_000;

/// The greatest pace, in ops.
pub const GREATEST_PACE: u32 = 200_000;

/// The greatest threshold, in pages.
pub const GREATEST_THRESHOLD: u32 = 16_384;

/// How many rounds there are at most.
pub const MOST_ROUNDS: u32 = 64;

/// The greatest quota, in KiB a second.
pub const GREATEST_QUOTA: u64 = 1_000_000_000;

/// The longest nap, in microseconds.
pub const LONGEST_NAP_US: u32 = 10_000;

/// How many bytes a guest file has at most where it is run.
pub const MOST_GUEST_BYTES: u64 = 16_777_216;

/// How many bytes a journal has at most.
pub const MOST_JOURNAL_BYTES: u64 = 134_217_728;

/// How many bytes a migration stream has at most.
pub const MOST_STREAM_BYTES: u64 = 1_077_936_128;

/// The bytes of a page.
pub const PAGE_BYTES: usize = 4_096;
