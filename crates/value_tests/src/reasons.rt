// The texts of faults, and the numbers and names of reasons.
use crate::compared::same;
use dst_spec::{FrameFault, Reason};
use std::alloc::{AllocError, Global};
use std::fmt::Write;
use std::test::Fail;

const REASONS: [Reason; 10] = [
    Reason::Truncated,
    Reason::PlainStuffing,
    Reason::MultiSegment,
    Reason::MapSkips,
    Reason::MethodReserved,
    Reason::TableTooShort,
    Reason::CoefRange,
    Reason::ProbRange,
    Reason::FirstCodeBit,
    Reason::CodeRange,
];

// Of each reason, in a line: its number, its name, and the text of a fault of it at bit 45.
const SHOWN: &str = "1 Truncated: 1 Truncated at bit 45
2 PlainStuffing: 2 PlainStuffing at bit 45
3 MultiSegment: 3 MultiSegment at bit 45
4 MapSkips: 4 MapSkips at bit 45
5 MethodReserved: 5 MethodReserved at bit 45
6 TableTooShort: 6 TableTooShort at bit 45
7 CoefRange: 7 CoefRange at bit 45
8 ProbRange: 8 ProbRange at bit 45
9 FirstCodeBit: 9 FirstCodeBit at bit 45
10 CodeRange: 10 CodeRange at bit 45
";

// What each reason shows.
fn shown(alloc: Global) -> Result<String, AllocError> {
    let mut text = String::new(alloc);
    for &reason in &REASONS {
        let (number, name) = (reason.number(), reason.name());
        let fault = FrameFault { reason, bit: 45 };
        writeln!(text, "{number} {name}: {fault}")?;
    }
    Ok(text)
}

#[test]
fn a_fault_shows_its_number_name_and_bit(rt: HostRuntime) -> Result<(), Fail> {
    let text = shown(rt.alloc())?;
    same(&rt, &text.as_str(), &SHOWN);
    Ok(())
}
