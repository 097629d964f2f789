//! A pcapng file, read in pieces, cut, and read without memory.
use crate::pieces::Pieces;
use at_pcap::{CaptureError, FrameHeader, KeptFrames, Time, read_capture};
use refusing::Refusing;
use std::alloc::{Allocator, Global};
use std::process::Abort;

// The lowest byte first: a section header; an interface of Ethernet, whose seconds have 10^9 ticks; an enhanced packet
// of three captured bytes and one that fills them up, 1,000,000,002 ticks after 1970.
static BLOCKS: &[u8] = b"\x0A\x0D\x0D\x0A\x1C\x00\x00\x00\x4D\x3C\x2B\x1A\x01\x00\x00\x00\
\xFF\xFF\xFF\xFF\xFF\xFF\xFF\xFF\x1C\x00\x00\x00\
\x01\x00\x00\x00\x20\x00\x00\x00\x01\x00\x00\x00\x00\x00\x00\x00\
\x09\x00\x01\x00\x09\x00\x00\x00\x00\x00\x00\x00\x20\x00\x00\x00\
\x06\x00\x00\x00\x24\x00\x00\x00\x00\x00\x00\x00\x00\x00\x00\x00\x02\xCA\x9A\x3B\
\x03\x00\x00\x00\x09\x00\x00\x00abc\0\x24\x00\x00\x00";

const FRAME: FrameHeader = FrameHeader {
    link_type: 1,
    time: Some(Time {
        seconds: 1,
        fraction: 2,
        digits: 9,
    }),
    original: 9,
};

// Whether this is the frame of the file.
fn is_frame<A: Allocator>(frames: &KeptFrames<A>) -> bool {
    match frames.frames.as_slice() {
        [frame] => frame.header == FRAME && frame.captured.as_slice() == b"abc".as_slice(),
        _ => false,
    }
}

#[test]
fn a_pcapng_file_is_read_in_pieces_of_each_length(rt: HostRuntime) {
    for most in 1..110usize {
        let mut frames = KeptFrames::new(rt.alloc());
        let mut reader = Pieces::of(BLOCKS, most);
        assert!(rt; read_capture(rt.alloc(), &mut reader, &mut frames).is_ok());
        assert!(rt; is_frame(&frames));
    }
}

// The number and the place of a fault.
fn fault_of(answer: Result<(), CaptureError>) -> Option<(u8, u64)> {
    match answer {
        Err(CaptureError::Fault { fault, at }) => Some((fault.number(), at)),
        _ => None,
    }
}

#[test]
fn each_cut_of_a_pcapng_file_has_its_fault(rt: HostRuntime) {
    for len in 0..BLOCKS.len() {
        let mut frames = KeptFrames::new(rt.alloc());
        let mut reader = &BLOCKS[..len];
        let answer = fault_of(read_capture(rt.alloc(), &mut reader, &mut frames));
        let wanted = match len {
            0..=3 => Some((80, 0)),
            4..=27 => Some((81, 0)),
            29..=59 => Some((81, 28)),
            61..=95 => Some((81, 60)),
            _ => None,
        };
        assert!(rt; answer == wanted);
    }
}

// Whether the file is read with so many requests for memory. If not, it says so.
fn reads_with(rt: &impl Abort, alloc: Global, granted: u64) -> bool {
    let heap = Refusing::new(alloc, granted);
    let mut frames = KeptFrames::new(&heap);
    let mut reader = BLOCKS;
    let answer = read_capture(&heap, &mut reader, &mut frames);
    assert!(rt; answer.is_ok() || matches!(answer, Err(CaptureError::NoMemory)));
    assert!(rt; answer.is_ok() != heap.has_refused());
    answer.is_ok()
}

#[test]
fn each_refused_request_for_an_interface_or_a_frame_is_reported(rt: HostRuntime) {
    assert!(rt; !reads_with(&rt, rt.alloc(), 0));
    assert!(rt; !reads_with(&rt, rt.alloc(), 1));
    assert!(rt; !reads_with(&rt, rt.alloc(), 2));
    assert!(rt; reads_with(&rt, rt.alloc(), 20));
}
