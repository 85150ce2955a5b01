//! Sinks and sources over devices that go wrong at a given call.

use counted_io::{Counted, FakeReader, FakeWriter, Input, ReadFault, read_to_limit, write_all};
use std::test::Fail;

/// A text is written, and then a comma, whatever came of the text.
#[test]
fn a_device_is_called_no_more_often_than_it_takes(rt: HostRuntime) -> Result<(), Fail> {
    for (is_slow, failing, full_from, first, second, taken, calls, failed) in [
        (false, None, None, true, true, "meter,", 2, 0),
        // a flush would be the third call
        (false, Some(3), None, true, true, "meter,", 2, 0),
        (false, Some(1), None, false, true, ",", 2, 1),
        (false, None, Some(2), true, false, "meter", 2, 1),
        (true, None, None, true, true, "meter,", 6, 0),
        (true, Some(3), None, false, true, "me,", 4, 1),
        (true, None, Some(3), false, false, "me", 4, 2),
    ] {
        let mut device = FakeWriter::new(Vec::new(rt.alloc()));
        device.byte_by_byte = is_slow;
        device.failing = failing;
        device.full_from = full_from;
        let mut sink = Counted::new(device);
        for (text, is_written) in [("meter", first), (",", second)] {
            let written = write_all(&mut sink, text.as_bytes());
            assert_eq!(rt; written.is_ok(), is_written);
        }
        assert_eq!(rt; sink.inner().taken.as_slice(), taken.as_bytes());
        assert_eq!(rt; (sink.inner().calls, sink.failed_calls()), (calls, failed));
    }
    Ok(())
}

/// What a device gives after its end, or after a failed call, is the next input.
#[test]
fn an_input_is_read_up_to_its_end_or_the_limit(rt: HostRuntime) -> Result<(), Fail> {
    for (device, first, second, calls, failed) in [
        (FakeReader::new(b"meter"), "meter", "", 3, 0),
        (FakeReader::new(b"meter").byte_by_byte(), "meter", "", 7, 0),
        (
            FakeReader::new(b"meters").byte_by_byte(),
            "too long",
            "",
            7,
            0,
        ),
        (
            FakeReader::new(b"meter").byte_by_byte().failing_at(3),
            "failed",
            "ter",
            7,
            1,
        ),
        (
            FakeReader::new(b"meter").byte_by_byte().pausing_at(4),
            "met",
            "er",
            7,
            0,
        ),
    ] {
        let mut source = Counted::new(device);
        for expected in [first, second] {
            let input = read_to_limit(rt.alloc(), &mut source, 5);
            let told = match &input {
                Ok(Input::Whole(bytes)) => bytes.as_slice(),
                Ok(Input::TooLong) => b"too long",
                Err(ReadFault::Failed) => b"failed",
                Err(ReadFault::OutOfMemory) => b"out of memory",
            };
            assert_eq!(rt; told, expected.as_bytes());
        }
        assert_eq!(rt;
            (source.inner().calls, source.failed_calls()),
            (calls, failed)
        );
    }
    Ok(())
}
