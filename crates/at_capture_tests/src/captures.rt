//! Classic captures, read in pieces, cut, written, and read without memory.
use crate::pieces::Pieces;
use at_pcap::{
    CaptureError, CaptureFault, FileHeader, FrameHeader, KeptFrames, Order, Precision, ReadError,
    RecordHeader, encode_file_header, encode_record_header, read_capture, read_file_header,
    read_record,
};
use refusing::Refusing;
use std::alloc::{Allocator, Global};
use std::process::Abort;

// Version 2.4, the lowest byte first, microseconds, 65,535 bytes of a frame at most, Ethernet.
static LITTLE: &[u8] =
    b"\xD4\xC3\xB2\xA1\x02\x00\x04\x00\x00\x00\x00\x00\x00\x00\x00\x00\xFF\xFF\x00\x00\x01\x00\x00\x00\
\x01\x00\x00\x00\x02\x00\x00\x00\x03\x00\x00\x00\x09\x00\x00\x00abc\
\x05\x00\x00\x00\x06\x00\x00\x00\x00\x00\x00\x00\x00\x00\x00\x00";

// The highest byte first, nanoseconds, LocalTalk; the upper bits of the last field say something else.
static BIG: &[u8] =
    b"\xA1\xB2\x3C\x4D\x00\x02\x00\x63\x00\x00\x00\x01\x00\x00\x00\x02\x00\x00\x00\x00\x14\x00\x00\x72\
\x01\x02\x03\x04\x00\x00\x00\x07\x00\x00\x00\x02\x00\x00\x00\x02xy";

const ETHERNET: FileHeader = FileHeader {
    order: Order::Little,
    precision: Precision::Microseconds,
    link_type: 1,
};

const LOCALTALK: FileHeader = FileHeader {
    order: Order::Big,
    precision: Precision::Nanoseconds,
    link_type: 114,
};

const FIRST: RecordHeader = RecordHeader {
    seconds: 1,
    fraction: 2,
    captured: 3,
    original: 9,
};

const EMPTY: RecordHeader = RecordHeader {
    seconds: 5,
    fraction: 6,
    captured: 0,
    original: 0,
};

// Whether these are the frames of the first capture.
fn are_both<A: Allocator>(frames: &KeptFrames<A>) -> bool {
    match frames.frames.as_slice() {
        [a, b] => {
            a.header == FrameHeader::of_record(ETHERNET, FIRST)
                && a.captured.as_slice() == b"abc".as_slice()
                && b.header == FrameHeader::of_record(ETHERNET, EMPTY)
                && b.captured.is_empty()
        }
        _ => false,
    }
}

// The number and the place of a fault.
fn fault_of(answer: Result<(), CaptureError>) -> Option<(u8, u64)> {
    match answer {
        Err(CaptureError::Fault { fault, at }) => Some((fault.number(), at)),
        _ => None,
    }
}

#[test]
fn a_capture_is_read_in_pieces_of_each_length(rt: HostRuntime) {
    for most in 1..80usize {
        let mut frames = KeptFrames::new(rt.alloc());
        let mut reader = Pieces::of(LITTLE, most);
        assert!(rt; read_capture(rt.alloc(), &mut reader, &mut frames).is_ok());
        assert!(rt; are_both(&frames));
    }
}

#[test]
fn each_step_reads_its_part(rt: HostRuntime) {
    let mut reader = BIG;
    let mut buffer = Vec::new(rt.alloc());
    assert!(rt; read_file_header(&mut reader).ok() == Some(LOCALTALK));
    let header = read_record(&mut reader, Order::Big, &mut buffer).ok();
    let wanted = RecordHeader {
        seconds: 0x0102_0304,
        fraction: 7,
        captured: 2,
        original: 2,
    };
    assert!(rt; header == Some(Some(wanted)));
    assert!(rt; buffer.as_slice() == b"xy".as_slice());
    assert!(rt; read_record(&mut reader, Order::Big, &mut buffer).ok() == Some(None));
}

#[test]
fn each_cut_of_a_capture_has_its_fault(rt: HostRuntime) {
    for len in 0..LITTLE.len() {
        let mut frames = KeptFrames::new(rt.alloc());
        let mut reader = &LITTLE[..len];
        let answer = fault_of(read_capture(rt.alloc(), &mut reader, &mut frames));
        let wanted = match len {
            0..=3 => Some((80, 0)),
            4..=23 => Some((81, 0)),
            25..=42 => Some((81, 24)),
            44..=58 => Some((81, 43)),
            _ => None,
        };
        assert!(rt; answer == wanted);
    }
}

#[test]
fn a_record_that_is_too_long_is_refused_before_it_is_cut(rt: HostRuntime) {
    let mut reader = b"\0\0\0\0\0\0\0\0\x01\x00\x04\x00".as_slice();
    let mut buffer = Vec::new(rt.alloc());
    let answer = read_record(&mut reader, Order::Little, &mut buffer);
    assert!(rt; matches!(answer, Err(ReadError::Fault(CaptureFault::RecordTooLong))));
}

#[test]
fn a_read_that_fails_ends_a_capture_behind_the_records_before_it(rt: HostRuntime) {
    let mut frames = KeptFrames::new(rt.alloc());
    let mut reader = Pieces::of(LITTLE, 7);
    reader.fails = true;
    let answer = read_capture(rt.alloc(), &mut reader, &mut frames);
    assert!(rt; matches!(answer, Err(CaptureError::Unreadable(_))));
    assert!(rt; are_both(&frames));
}

// Whether the capture is read with so many requests for memory. If not, it says so.
fn reads_with(rt: &impl Abort, alloc: Global, granted: u64) -> bool {
    let heap = Refusing::new(alloc, granted);
    let mut frames = KeptFrames::new(&heap);
    let mut reader = LITTLE;
    let answer = read_capture(&heap, &mut reader, &mut frames);
    assert!(rt; answer.is_ok() || matches!(answer, Err(CaptureError::NoMemory)));
    assert!(rt; answer.is_ok() != heap.has_refused());
    answer.is_ok()
}

#[test]
fn each_refused_request_for_memory_is_reported(rt: HostRuntime) {
    assert!(rt; !reads_with(&rt, rt.alloc(), 0));
    assert!(rt; !reads_with(&rt, rt.alloc(), 1));
    assert!(rt; !reads_with(&rt, rt.alloc(), 2));
    assert!(rt; reads_with(&rt, rt.alloc(), 20));
}

#[test]
fn what_is_written_has_the_bytes_of_the_format(rt: HostRuntime) {
    assert!(rt; encode_file_header(ETHERNET, 65_535).as_slice() == &LITTLE[..24]);
    assert!(rt; encode_record_header(Order::Little, FIRST).as_slice() == &LITTLE[24..40]);
    assert!(rt;
        encode_record_header(Order::Big, FIRST).as_slice()
            == b"\0\0\0\x01\0\0\0\x02\0\0\0\x03\0\0\0\x09".as_slice()
    );
}
