// Devices in memory for tests, with calls that are made to fail.
ghost use Rattle.std.specs.Prelude.{◌<◌};

mod flow;
mod short_flow_sink;
mod sink;
mod source;

pub use flow::MemoryFlow;
pub use short_flow_sink::ShortFlowSink;
pub use sink::MemorySink;
pub use source::MemorySource;

// The most bytes that read number `turn` may give: the pieces go round, and there is no limit where there are none.
fn piece_limit(pieces: &[usize], turn: u64) -> usize
    ensures { 0 < result }
{
    if pieces.is_empty() {
        return usize::MAX;
    }
    pieces[(turn % pieces.len() as u64) as usize].max(1)
}
