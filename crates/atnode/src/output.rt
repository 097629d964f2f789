//! The standard output.
use at_print::Printer;
use std::io;
use std::io::BufWriter;

/// Prints to the standard output, behind a buffer.
pub(crate) fn printer_to<R: Print + AllocGlobal>(
    rt: &R,
) -> io::Result<Printer<BufWriter<io::Printer<'_, R>>>> {
    let writer = BufWriter::new(rt.alloc(), io::writer(rt))?;
    Ok(Printer::new(writer))
}
