//! How ADSP segments print, a line each.
ghost use Rattle.at_adsp_frame.specs.Segments.{content, part};
ghost use Rattle.at_print.specs.Printers.{Prints};
ghost use Rattle.at_print.specs.SegmentLines.{part_text, segment_line};

use crate::digits::write_hex;
use crate::paper::Paper;
use crate::part::Part;
use crate::printer::Printer;
use at_adsp_frame::{Body, Segment};

/// The line of an ADSP segment.
pub(crate) fn write_segment<W: Paper>(printer: &mut Printer<W>, segment: &Segment<'_>)
    ensures { Prints W.page printer.old printer.new (segment_line (content segment.now)) }
{
    printer.write_each(&[
        Part::Text(b"adsp id "),
        Part::Number(segment.source as u64),
        Part::Text(b" first "),
        Part::Number(segment.first as u64),
        Part::Text(b" next "),
        Part::Number(segment.next as u64),
        Part::Text(b" window "),
        Part::Number(segment.window as u64),
        Part::Text(b" ack "),
        Part::Number(u64::from(segment.ack)),
        Part::Text(b" "),
    ]);
    write_body(printer, &segment.body);
    printer.write_all(b"\n");
}

// What a segment is for.
fn write_body<W: Paper>(printer: &mut Printer<W>, body: &Body<'_>)
    ensures { Prints W.page printer.old printer.new (part_text (part body.now)) }
{
    match body {
        Body::Data { end, data_ } => {
            printer.write_each(&[
                Part::Text(b"data end "),
                Part::Number(u64::from(*end)),
                Part::Text(b" "),
            ]);
            write_hex(printer, data_);
        }
        Body::Probe => printer.write_all(b"probe"),
        Body::Open { kind, dest } => printer.write_each(&[
            Part::Text(b"open "),
            Part::Number(kind.code() as u64),
            Part::Text(b" dest "),
            Part::Number(*dest as u64),
        ]),
        Body::Close => printer.write_all(b"close"),
        Body::Reset => printer.write_all(b"reset"),
        Body::ResetAck => printer.write_all(b"resetack"),
        Body::Advice => printer.write_all(b"advice"),
    }
}
