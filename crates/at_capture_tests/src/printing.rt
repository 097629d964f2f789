//! What is printed of a capture, also where memory is refused.
use at_capture::CapturePrinter;
use at_diagnostics::Diagnostics;
use at_opened::Source;
use at_print::{Printer, Status};
use refusing::Refusing;
use std::alloc::Global;
use std::process::Abort;

// Frames of LocalTalk: a response of ATP that no frame asks for, a request of node 5 to node 1, and the same response.
static CAPTURE: &[u8] =
    b"\xD4\xC3\xB2\xA1\x02\x00\x04\x00\x00\x00\x00\x00\x00\x00\x00\x00\xFF\xFF\x00\x00\x72\x00\x00\x00\
\x01\x00\x00\x00\x00\x00\x00\x00\x10\x00\x00\x00\x10\x00\x00\x00\
\x05\x01\x01\x00\x0D\x80\x81\x03\x80\x00\x00\x09\x00\x00\x00\x00\
\x02\x00\x00\x00\x00\x00\x00\x00\x10\x00\x00\x00\x10\x00\x00\x00\
\x01\x05\x01\x00\x0D\x81\x80\x03\x40\x01\x00\x09\x00\x00\x00\x00\
\x03\x00\x00\x00\x00\x00\x00\x00\x10\x00\x00\x00\x10\x00\x00\x00\
\x05\x01\x01\x00\x0D\x80\x81\x03\x80\x00\x00\x09\x00\x00\x00\x00";

const WHOLE: &str = "frame 1 1.000000 localtalk 1 5
ddp short length 13 from 1.129 to 5.128 type 3 rest 0
atp response place 0 eom 0 sts 0 id 9 user 00000000 data -
frame 2 2.000000 localtalk 5 1
ddp short length 13 from 5.128 to 1.129 type 3 rest 0
atp request mask 01 xo 0 timer 0 id 9 user 00000000 data -
frame 3 3.000000 localtalk 1 5
ddp short length 13 from 1.129 to 5.128 type 3 rest 0
atp response place 0 eom 0 sts 0 id 9 user 00000000 data -
answers frame 2
frames 3 datagrams 3 refused 0 other 0
";

// There was no memory for what frame 2 asks.
const FIRST: &str = "frame 1 1.000000 localtalk 1 5
ddp short length 13 from 1.129 to 5.128 type 3 rest 0
atp response place 0 eom 0 sts 0 id 9 user 00000000 data -
stopped nomemory at 1
frames 1 datagrams 1 refused 0 other 0
";

// There was none to read by.
const NOTHING: &str = "stopped nomemory at 0
frames 0 datagrams 0 refused 0 other 0
";

// What is printed with so many requests for memory, and whether one more was refused. If one was, it is told.
fn printed_with(rt: &impl Abort, alloc: Global, granted: u64) -> (Vec<u8>, bool) {
    let heap = Refusing::new(alloc, granted);
    let mut printed = Vec::new(alloc);
    let mut told = Vec::new(alloc);
    let status = status_of(&heap, &mut printed, &mut told);
    assert!(rt; (status == Status::Done) != heap.has_refused());
    assert!(rt; told.is_empty() != heap.has_refused());
    assert!(rt; heap.held() == 0);
    (printed, heap.has_refused())
}

fn status_of(heap: &Refusing<Global>, printed: &mut Vec<u8>, told: &mut Vec<u8>) -> Status {
    let source: Source<&[u8], &[u8]> = Source::Opened(CAPTURE);
    let diagnostics = Diagnostics::new("lab.pcap", told);
    let mut frames = CapturePrinter::new(heap, Printer::new(printed), diagnostics);
    frames.print_source(source)
}

#[test]
fn each_refused_request_ends_a_capture_behind_the_frames_before_it(rt: HostRuntime) {
    let mut was_first = false;
    let mut was_whole = false;
    for granted in 0..12u64 {
        let (printed, is_refused) = printed_with(&rt, rt.alloc(), granted);
        let text = printed.as_slice();
        let is_first = text == FIRST.as_bytes();
        let is_whole = text == WHOLE.as_bytes();
        assert!(rt; is_whole != is_refused);
        assert!(rt; is_whole || is_first || text == NOTHING.as_bytes());
        was_first = was_first || is_first;
        was_whole = was_whole || is_whole;
    }
    assert!(rt; was_first);
    assert!(rt; was_whole);
}
