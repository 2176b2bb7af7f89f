// Numbers and values of refusals that no other test reaches.
use crate::Refusal;
use std::test::Fail;

#[test]
fn numbers(rt: HostRuntime) -> Result<(), Fail> {
    assert!(rt; Refusal::TooManyOpen.number() == Some(10));
    assert!(rt; Refusal::TooManyDrafts.number() == Some(11));
    assert!(rt; Refusal::NotInHand.number() == Some(14));
    assert!(rt; Refusal::Overtaken.number() == Some(15));
    Ok(())
}

#[test]
fn nodes_taken(rt: HostRuntime) -> Result<(), Fail> {
    let full = Refusal::ListFull { taken: u32::MAX };
    assert!(rt; full.number() == Some(12));
    assert!(rt; full.values().as_slice() == [u32::MAX as usize].as_slice());
    let spent = Refusal::BudgetSpent { taken: 7 };
    assert!(rt; spent.number() == Some(13));
    assert!(rt; spent.values().as_slice() == [7].as_slice());
    Ok(())
}
