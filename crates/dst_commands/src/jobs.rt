// How many frames are worked in a batch.
ghost use Rattle.std.specs.Prelude.{◌≡◌, ◌≤◌};
ghost use Rattle.dst_commands.specs.Rooms.{jobs_in};

use dst_num::Channels;

/// Most jobs for each worker at 64 times 44.1 kHz: they are fewer where frames are longer.
const MOST_JOBS: u32 = 16;

/// How many jobs so many workers have: no more than there are frames, and at least one.
pub fn job_count(channels: Channels, frames: u32, workers: u32) -> u32
    ensures count { result ≡ jobs_in channels frames workers }
    ensures least { 1 ≤ result }
{
    let each = MOST_JOBS / channels.multiple() as u32;
    frames.min(each.saturating_mul(workers)).max(1)
}
