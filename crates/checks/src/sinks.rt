// The two sinks: exactly full, one place short in either table, and numbers at the limit.
use refusal::Refusal;
use std::test::Fail;
use strips::mark_sink::MarkSink;
use strips::sink::{MARK, Sink};
use strips::start_sink::StartSink;
use strips::writing::write_strip;

#[test]
fn a_mark_sink_exactly_full(rt: HostRuntime) -> Result<(), Fail> {
    let mut places = [9; 4];
    let mut sink = MarkSink::new(&mut places);
    write_strip(&mut sink, &[1, 2, 3], 10)?;
    assert_eq!(rt; sink.used(), 4);
    assert_eq!(rt;
        sink.push(5),
        Err(Refusal::SinkFull {
            numbers: 1,
            breaks: 0
        })
    );
    assert_eq!(rt;
        sink.end_strip(),
        Err(Refusal::SinkFull {
            numbers: 0,
            breaks: 1
        })
    );
    assert_eq!(rt; places, [11, 12, 13, MARK]);
    Ok(())
}

#[test]
fn a_mark_sink_one_place_short(rt: HostRuntime) {
    let mut places = [9; 3];
    let mut sink = MarkSink::new(&mut places);
    let refused = write_strip(&mut sink, &[1, 2, 3], 10);
    assert_eq!(rt;
        refused,
        Err(Refusal::SinkFull {
            numbers: 3,
            breaks: 1
        })
    );
    assert_eq!(rt; sink.used(), 0);
    assert_eq!(rt; places, [9, 9, 9]);
}

#[test]
fn a_start_sink_in_either_table(rt: HostRuntime) -> Result<(), Fail> {
    let mut numbers = [9; 5];
    let mut starts = [9; 2];
    let mut sink = StartSink::new(&mut numbers, &mut starts);
    write_strip(&mut sink, &[1, 2, 3], 10)?;
    write_strip(&mut sink, &[4], 0)?;
    assert_eq!(rt; (sink.used(), sink.breaks()), (4, 2));
    assert_eq!(rt;
        sink.end_strip(),
        Err(Refusal::SinkFull {
            numbers: 0,
            breaks: 1
        })
    );
    assert_eq!(rt;
        write_strip(&mut sink, &[], 0),
        Err(Refusal::SinkFull {
            numbers: 0,
            breaks: 1
        })
    );
    sink.push(7)?;
    assert_eq!(rt;
        sink.push(8),
        Err(Refusal::SinkFull {
            numbers: 1,
            breaks: 0
        })
    );
    assert_eq!(rt; numbers, [11, 12, 13, 4, 7]);
    assert_eq!(rt; starts, [3, 4]);
    Ok(())
}

#[test]
fn numbers_at_the_limit(rt: HostRuntime) -> Result<(), Fail> {
    let mut places = [9; 3];
    let mut sink = MarkSink::new(&mut places);
    write_strip(&mut sink, &[4_294_967_290], 4)?;
    let refused = write_strip(&mut sink, &[4_294_967_290], 5);
    assert_eq!(rt;
        refused,
        Err(Refusal::NumberTooLarge {
            number: 4_294_967_295
        })
    );
    // the number is asked before the space
    let refused = write_strip(&mut sink, &[1, MARK], 1);
    assert_eq!(rt;
        refused,
        Err(Refusal::NumberTooLarge {
            number: 4_294_967_296
        })
    );
    assert_eq!(rt;
        sink.push(MARK),
        Err(Refusal::NumberTooLarge {
            number: 4_294_967_295
        })
    );
    assert_eq!(rt; places, [4_294_967_294, MARK, 9]);
    Ok(())
}
