//! The guest that is simulated, made as the text of a guest file.

ghost use Rattle.std.specs.Prelude.{◌≤◌, IfOk};
ghost use Rattle.dr_types.specs.Validity.{IsValid};

use dr_guestfile::read_guest;
use dr_types::{FileFault, Guest};
use std::alloc::{AllocError, Global};
use std::fmt::Write;

/// How many vCPUs the guest has.
const VCPUS: u32 = 4;

/// How many pages the guest has, from address 0 on.
const PAGES: u32 = 2_000;

/// How many pages all vCPUs write often.
const HOT_PAGES: u32 = 16;

/// How many operations the repeated part of a script has.
const BODY_OPS: u32 = 1_000;

/// All lines before the scripts. The quota is small, so that vCPUs are throttled, and so is the
/// ring, so that they leave the guest because it is full.
const HEAD: &str = "\
dirtyguest 1
ring 32
reserve 4
buffer 8
pace 1
threshold 8
rounds 64
quota 50000
slot 0 0 2000
";

/// A number that looks like chance, from the one before it.
fn next_number(last: u64) -> u64 {
    last.wrapping_mul(6_364_136_223_846_793_005)
        .wrapping_add(1_442_695_040_888_963_407)
}

/// The address of 8 bytes in one of so many pages, picked by a number.
fn picked_address(number: u64, pages: u32) -> u64
    requires { 1 ≤ pages }
{
    (number >> 33) % u64::from(pages) * 4_096 + (number >> 20) % 512 * 8
}

/// Adds the line of the operation that a number picks: of 32, 9 are loads, 1 is an addition, 4 are
/// stores to hot pages and 18 stores to any page.
fn push_op(text: &mut String, number: u64) -> Result<(), AllocError> {
    let anywhere = picked_address(number, PAGES);
    let hot = picked_address(number, HOT_PAGES);
    match number >> 59 {
        0..=8 => write!(text, "r {anywhere}\n")?,
        9 => write!(text, "a {number}\n")?,
        10..=13 => write!(text, "w {hot} {number:016x}\n")?,
        _ => write!(text, "w {anywhere} {number:016x}\n")?,
    }
    Ok(())
}

/// Adds the script of a vCPU: the repeated part 49 times, and a halt.
fn push_script(text: &mut String, v: u32) -> Result<(), AllocError> {
    text.push_str("vcpu\nrep 49\n")?;
    let mut number = u64::from(v);
    for _ in 0..BODY_OPS {
        number = next_number(number);
        push_op(text, number)?;
    }
    text.push_str("end\nhalt\n")?;
    Ok(())
}

/// The guest whose vCPUs load and store all over its memory.
pub fn sample_guest(alloc: Global) -> Result<Guest, FileFault>
    ensures { IfOk result IsValid }
{
    let mut text = String::from_str(alloc, HEAD)?;
    for v in 0..VCPUS {
        push_script(&mut text, v)?;
    }
    read_guest(alloc, text.as_bytes())
}
