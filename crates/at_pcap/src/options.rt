//! The options of an interface.
ghost use Rattle.std.specs.Prelude.{◌≡◌, ◌+◌, ◌*◌, ◌/◌, ◌%◌, ◌<◌, ◌≤◌, [], length, IfOk, IfErr};
ghost use Rattle.at_pcap.specs.Blocks.{option_in, options, passed_in, resolution_in, two_at};
ghost use Rattle.at_pcap.specs.OptionSteps.{AreOptions, setting_in, size_in};
ghost use Rattle.at_pcap.specs.Steps.{IsPart, TellsBreak};

use crate::fault::{CaptureFault, ReadError};
use crate::fill::fill;
use crate::interface::Resolution;
use crate::order::Order;
use crate::passing::pass_over;
use std::io::Read;

// The code that ends the options, and the code of if_tsresol.
const END: u16 = 0;

const TSRESOL: u16 = 9;

// The length in bytes of an option's code and of the length of its value.
const OPTION_LEN: usize = 4;

// What an option leaves: the resolution, and how many bytes it has.
#[derive(Clone, Copy)]
struct OptionRead {
    resolution: Resolution,
    size: u32,
}

/// Reads the options of an interface, up to the one that ends them. It returns what they say, and how many of so many
/// bytes are left.
pub(crate) fn read_options<R: Read>(
    reader: &mut R,
    order: Order,
    count: u32,
) -> Result<(Resolution, u32), ReadError>
    requires { count % 4 ≡ 0 }
    ensures found { IfOk result (λ r. AreOptions order count (R.remaining reader.old) (R.remaining reader.new) r.0
        r.1) }
    ensures fault { IfErr result (TellsBreak (options count order count (Resolution.Decimal 6))
        (R.remaining reader.old) []) }
{
    let mut resolution = Resolution::Decimal(6);
    let mut left = count;
    while left > 0 {
        match read_option(reader, order, left, resolution)? {
            Some(option) => {
                resolution = option.resolution;
                left -= option.size;
            }
            None => return Ok((resolution, left - OPTION_LEN as u32)),
        }
    }
    Ok((resolution, 0))
}

// Reads an option, where so many bytes are left. None ends the options.
fn read_option<R: Read>(
    reader: &mut R,
    order: Order,
    left: u32,
    resolution: Resolution,
) -> Result<Option<OptionRead>, ReadError>
    requires room { 4 ≤ left }
    requires even { left % 4 ≡ 0 }
    ensures found { IfOk result (λ s. IsPart (option_in order left resolution) (R.remaining reader.old)
        (R.remaining reader.new) [] (size_in s) (setting_in s)) }
    ensures fits { IfOk result (λ s. size_in s ≤ left) }
    ensures least { IfOk result (λ s. 4 ≤ size_in s) }
    ensures even { IfOk result (λ s. size_in s % 4 ≡ 0) }
    ensures fault { IfErr result (TellsBreak (option_in order left resolution) (R.remaining reader.old) []) }
{
    let mut head = [0; OPTION_LEN];
    let len = fill(reader, &mut head)?;
    if len < OPTION_LEN {
        return Err(ReadError::Fault(CaptureFault::CutCapture));
    }
    let code = order.read_u16(&head);
    if code == END {
        return Ok(None);
    }
    let value_len = u32::from(order.read_u16(&head[2..]));
    if left < OPTION_LEN as u32 + value_len {
        return Err(ReadError::Fault(CaptureFault::BadResolution));
    }
    if code == TSRESOL {
        return read_resolution(reader, order, &head);
    }
    read_other(reader, order, &head, resolution)
}

// Reads the value of if_tsresol.
fn read_resolution<R: Read>(
    reader: &mut R,
    order: Order,
    head: &[u8],
) -> Result<Option<OptionRead>, ReadError>
    requires { length head.now ≡ 4 }
    ensures found { IfOk result (λ s. IsPart (resolution_in order) (R.remaining reader.old) (R.remaining reader.new)
        head.now 8 (setting_in s)) }
    ensures size { IfOk result (λ s. size_in s ≡ 8) }
    ensures one { IfOk result (λ s. two_at order 2 head.now ≡ 1) }
    ensures fault { IfErr result (TellsBreak (resolution_in order) (R.remaining reader.old) head.now) }
{
    if order.read_u16(&head[2..]) != 1 {
        return Err(ReadError::Fault(CaptureFault::BadResolution));
    }
    let mut value = [0; 4];
    let len = fill(reader, &mut value)?;
    if len < 1 {
        return Err(ReadError::Fault(CaptureFault::CutCapture));
    }
    let Some(resolution) = Resolution::of_byte(value[0]) else {
        return Err(ReadError::Fault(CaptureFault::BadResolution));
    };
    if len < value.len() {
        return Err(ReadError::Fault(CaptureFault::CutCapture));
    }
    Ok(Some(OptionRead {
        resolution,
        size: 8,
    }))
}

// Passes over the value of another option.
fn read_other<R: Read>(
    reader: &mut R,
    order: Order,
    head: &[u8],
    resolution: Resolution,
) -> Result<Option<OptionRead>, ReadError>
    requires { length head.now ≡ 4 }
    ensures found { IfOk result (λ s. IsPart (passed_in order resolution) (R.remaining reader.old)
        (R.remaining reader.new) head.now (size_in s) (setting_in s)) }
    ensures size { IfOk result (λ s. size_in s ≡ 4 + (two_at order 2 head.now + 3) / 4 * 4) }
    ensures fault { IfErr result (TellsBreak (passed_in order resolution) (R.remaining reader.old) head.now) }
{
    let padded = (u32::from(order.read_u16(&head[2..])) + 3) / 4 * 4;
    if !pass_over(reader, padded)? {
        return Err(ReadError::Fault(CaptureFault::CutCapture));
    }
    Ok(Some(OptionRead {
        resolution,
        size: OPTION_LEN as u32 + padded,
    }))
}
