// Values worked out apart.
use dst_num::ProbTable;
use filter_refiner::shorten;
use std::test::Fail;

#[test]
fn repeated_entries_at_the_end_are_left_out(rt: HostRuntime) -> Result<(), Fail> {
    const CASES: [(&[u8], &[u8]); 3] = [
        (&[77, 1, 1, 1], &[77, 1]),
        (&[128, 128, 128], &[128, 128]),
        (&[7, 7, 7, 9, 9], &[7, 7, 7, 9]),
    ];
    for &(entries, short) in &CASES {
        let table = ProbTable::new(entries).ok_or("no table")?;
        if table.entries().len() < 2 {
            return Err("a short table")?;
        }
        assert_eq!(rt; shorten(&table).entries(), short);
    }
    Ok(())
}
