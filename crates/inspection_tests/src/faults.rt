// The line of every fault of an inspection.
use inspection::{OfferFault, OpeningFault, ReturnFault, StandingFault, TakingFault, WindowFault};
use sheet::Notice;
use std::process::Abort;
use std::test::Fail;

fn expect_line(rt: &(impl Abort + AllocGlobal), notice: Notice, line: &str) -> Result<(), Fail> {
    assert!(rt; notice.to_string(rt.alloc())?.as_str() == line, "{}", line);
    Ok(())
}

#[test]
fn lines(rt: HostRuntime) -> Result<(), Fail> {
    expect_line(
        &rt,
        OpeningFault::TooDeep(7).notice(),
        "fault 15 opening 7 0",
    )?;
    expect_line(
        &rt,
        OfferFault::TableTooShort.notice(),
        "fault 16 offer 0 0",
    )?;
    expect_line(
        &rt,
        OfferFault::NoSuchFace(9).notice(),
        "fault 17 offer 9 0",
    )?;
    expect_line(&rt, OfferFault::SameFace(3).notice(), "fault 18 offer 3 0")?;
    expect_line(
        &rt,
        OfferFault::NoSuchPoint(4095).notice(),
        "fault 19 offer 4095 0",
    )?;
    expect_line(
        &rt,
        OfferFault::TooManyOffers.notice(),
        "fault 20 offer 0 0",
    )?;
    expect_line(&rt, OfferFault::ListFull.notice(), "fault 21 offer 0 0")?;
    expect_line(
        &rt,
        WindowFault::TableTooShort.notice(),
        "fault 16 window 0 0",
    )?;
    expect_line(
        &rt,
        WindowFault::NoSuchEntry(512).notice(),
        "fault 22 window 512 0",
    )?;
    expect_line(
        &rt,
        WindowFault::NotOfTheSheet(5).notice(),
        "fault 19 window 5 0",
    )?;
    expect_line(
        &rt,
        TakingFault::NoSuchReviewer(9).notice(),
        "fault 26 slip 9 0",
    )?;
    expect_line(
        &rt,
        TakingFault::NoSuchEntry(6).notice(),
        "fault 22 slip 6 0",
    )?;
    expect_line(&rt, TakingFault::NotFree(3).notice(), "fault 27 slip 3 0")?;
    expect_line(
        &rt,
        ReturnFault::NoSuchEntry(6).notice(),
        "fault 22 slip 6 0",
    )?;
    expect_line(&rt, ReturnFault::NotTaken(3).notice(), "fault 28 slip 3 0")?;
    expect_line(
        &rt,
        StandingFault::NoSuchEntry(6).notice(),
        "fault 22 slip 6 0",
    )
}
