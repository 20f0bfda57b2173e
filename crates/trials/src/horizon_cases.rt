use kinds::Refusal;
use plants::Horizon;

// The beats of the horizon of a number, or its refusal.
fn beats_of(beats: usize) -> Result<usize, Refusal> {
    Ok(Horizon::try_from(beats)?.beats())
}

#[test]
fn horizons(rt: HostRuntime) {
    assert_eq!(rt; beats_of(0), Err(Refusal::Range));
    assert_eq!(rt; beats_of(1), Ok(1));
    assert_eq!(rt; beats_of(64), Ok(64));
    assert_eq!(rt; beats_of(65), Err(Refusal::Range));
    assert_eq!(rt; beats_of(usize::MAX), Err(Refusal::Range));
}
