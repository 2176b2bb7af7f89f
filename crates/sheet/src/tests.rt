// A fresh sheet in an exact buffer and in one that is a byte short, worked out by hand.
use crate::sheet::write_sheet;
use refusals::Refusal;
use run::run::Run;
use std::test::Fail;

#[test]
fn exact_and_one_short(rt: HostRuntime) -> Result<(), Fail> {
    let mut run = Run::new();
    let plan =
        b"\x00\x02\x00\x00\x00\x0c\x00\x03\x00\x18\x00\x03\x00\x01\x00\x00\x00\x05\x00\x01\x00\x02\x00\x02\x00\x03\x00\x00\x00\x05\x00\x03\x00\x04\x00\x04";
    run.open(rt.alloc(), 1, plan).ok().ok_or("a good plan")?;
    let mut short = [7u8; 7];
    assert!(rt; write_sheet(&run, &mut short) == Err(Refusal::ShortBuffer));
    assert_eq!(rt; short, [7u8; 7]);
    let mut exact = [7u8; 8];
    assert!(rt; write_sheet(&run, &mut exact) == Ok(8));
    assert_eq!(rt; exact, *b"2 0\n4 1\n");
    Ok(())
}
