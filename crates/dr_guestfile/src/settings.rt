ghost use Rattle.std.specs.Prelude.{◌≡◌, ◌≤◌, IfOk};
ghost use Rattle.dr_guestfile_lines.specs.Reading.{Reads};
ghost use Rattle.dr_guestfile.specs.SettingLines.{setting_of, setting_in, room_in, settings_in};
ghost use Rattle.dr_guestfile.specs.SettingLines.{is_ring_size as ring_size};

use dr_guestfile_lines::{Line, Lines, number};
use dr_types::limits::{
    GREATEST_BUFFER, GREATEST_PACE, GREATEST_QUOTA, GREATEST_RESERVE, GREATEST_RING,
    GREATEST_THRESHOLD, LEAST_RING, MOST_ROUNDS,
};
use dr_types::{FileFault, Settings};

/// A setting's number, and the number of its line.
#[derive(Clone, Copy)]
pub struct Setting {
    pub no: u64,
    pub number: u64,
}

/// The number of a line that has this name and a number from `low` to `high`.
#[tactic(auto, unfolding(crate::specs::SettingLines::setting_of))]
fn setting_of_line(line: Line<'_>, name: &[u8], low: u64, high: u64) -> Result<Setting, FileFault>
    ensures line { result ≡ setting_of name.now low high line.entry }
    ensures range { IfOk result (λ setting. setting.number ≤ high) }
{
    let no = line.number;
    let Some((word, digits)) = line.words.two() else {
        return Err(FileFault::Line { no });
    };
    if word != name {
        return Err(FileFault::Line { no });
    }
    let number = number(digits, low, high).ok_or(FileFault::Number { no })?;
    Ok(Setting { no, number })
}

/// The number of the next line, which has this name and a number from `low` to `high`.
#[tactic(auto, unfolding(crate::specs::SettingLines::setting_in))]
fn setting_line(
    input: &mut Lines<'_>,
    name: &[u8],
    low: u64,
    high: u64,
) -> Result<Setting, FileFault>
    ensures line { Reads result input.new (setting_in name.now low high input.old) }
    ensures range { IfOk result (λ setting. setting.number ≤ high) }
{
    let line = input.need_line()?;
    setting_of_line(line, name, low, high)
}

/// A power of two in the range of a ring's sizes.
pub fn is_ring_size(size: u64) -> bool
    ensures { result ≡ ring_size size }
{
    u64::from(LEAST_RING) <= size && size <= u64::from(GREATEST_RING) && size.is_power_of_two()
}

/// The fault of a reserve and a buffer that fill the ring.
fn leave_room(ring: Setting, reserve: Setting, buffer: Setting) -> Result<(), FileFault>
    requires reserve { reserve.number ≤ 65535 }
    requires buffer { buffer.number ≤ 512 }
    ensures { result ≡ room_in ring reserve buffer }
{
    if reserve.number + buffer.number >= ring.number {
        return Err(FileFault::Reserve { no: buffer.no });
    }
    Ok(())
}

/// The lines from `ring` to `quota`, in this order.
#[tactic(auto, unfolding(crate::specs::SettingLines::settings_in))]
pub fn settings(input: &mut Lines<'_>) -> Result<Settings, FileFault>
    ensures { Reads result input.new (settings_in input.old) }
{
    let ring = setting_line(input, b"ring", 0, u64::MAX)?;
    if !is_ring_size(ring.number) {
        return Err(FileFault::RingSize { no: ring.no });
    }
    let reserve = setting_line(input, b"reserve", 1, u64::from(GREATEST_RESERVE))?;
    let buffer = setting_line(input, b"buffer", 0, u64::from(GREATEST_BUFFER))?;
    leave_room(ring, reserve, buffer)?;
    let pace = setting_line(input, b"pace", 1, u64::from(GREATEST_PACE))?;
    let threshold = setting_line(input, b"threshold", 0, u64::from(GREATEST_THRESHOLD))?;
    let rounds = setting_line(input, b"rounds", 1, u64::from(MOST_ROUNDS))?;
    let quota = setting_line(input, b"quota", 0, GREATEST_QUOTA)?;
    Ok(Settings {
        ring: ring.number as u32,
        reserve: reserve.number as u32,
        buffer: buffer.number as u32,
        pace: pace.number as u32,
        threshold: threshold.number as u32,
        rounds: rounds.number as u32,
        quota: quota.number,
    })
}
