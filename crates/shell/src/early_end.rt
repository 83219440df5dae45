ghost use Rattle.std.specs.Prelude.{◌≡◌, ◌++◌, OnOk, OnErr, codes, decimal};
ghost use Rattle.vol_types.specs.Faults.{CountsFaults};
ghost use Rattle.text_io.specs.Streams.{GivesPrefix};
ghost use Rattle.shell.specs.Outcome.{bad_end, early_line, early_status, refusal_line};

use command_line::WordsFault;
use dev_model::Devices;
use geometry::DiskFault;
use image_view::MountFault;
use itoa::Buffer;
use script_text::{LineFault, ScriptFault};
use text_io::{Sink, TakeFault, give_all};
use vol_types::{Failed, Place};

/// Why the volume on devices isn't opened.
#[derive(Clone, Copy)]
pub enum MountRefusal {
    /// A device has no superblock.
    NoSuper,
    /// A superblock has another version than 1.
    Version,
    /// The superblocks aren't those of one volume's devices in their order.
    Mixed,
    /// A superblock has another form, or a number out of its range, or a device has fewer blocks than it says.
    BadLayout,
    /// No session is named, or no entry of the journal is whole, or no number is left for a new session.
    NoEntry,
    /// The journal's entry of this sequence is needed, and isn't whole.
    MissingEntry(u64),
    /// At this place a node of a btree is bad.
    BadNode(Place),
    /// The keys fail this one of the eight checks. No command tests them yet.
    Unsound(u8),
}

/// Why nothing is run, told or formatted.
#[derive(Clone, Copy)]
pub enum EarlyEnd {
    /// The arguments are no command, or ask for a layout that no volume may have.
    Usage,
    /// The first line that is no operation.
    BadLine(u32, LineFault),
    /// The script is longer than a run takes.
    TooLong,
    /// The script couldn't be read.
    Source,
    /// The volume isn't opened, for this reason.
    Refused(MountRefusal),
    /// This device failed while its volume was opened or read, or while it was formatted.
    Device(u8),
    /// Out of memory.
    OutOfMemory,
}

/// The status with which the program ends.
pub fn status_of(end: EarlyEnd) -> u8
    ensures { result ≡ early_status end }
{
    match end {
        EarlyEnd::Usage => 1,
        EarlyEnd::BadLine(_, _) | EarlyEnd::TooLong => 2,
        EarlyEnd::Refused(_) => 3,
        EarlyEnd::Source => 4,
        EarlyEnd::Device(_) => 6,
        EarlyEnd::OutOfMemory => 7,
    }
}

/// Prints the line that says so. It takes no memory.
pub fn print_early_end<K: Sink<D>, D: Devices>(
    end: EarlyEnd,
    sink: &mut K,
    devices: &D,
) -> Result<(), Failed>
    ensures ok { K.tells → OnOk result (K.held sink.new ≡ K.held sink.old ++ early_line end) }
    ensures failed { K.tells → OnErr result (GivesPrefix (early_line end) (K.held sink.old)
        (K.held sink.new)) }
    ensures cause { CountsFaults result (K.faults sink.old) (K.faults sink.new) }
{
    match end {
        EarlyEnd::Usage => give_all(sink, b"error 1 usage\n", devices),
        EarlyEnd::BadLine(line, cause) => give_number(
            sink,
            devices,
            b"error 2 line ",
            u64::from(line),
            bad_end(cause),
        ),
        EarlyEnd::TooLong => give_all(sink, b"error 2 too-long\n", devices),
        EarlyEnd::Source => give_all(sink, b"error 4 source\n", devices),
        EarlyEnd::Refused(refusal) => print_refusal(refusal, sink, devices),
        EarlyEnd::Device(dev) => give_number(
            sink,
            devices,
            b"error 6 device ",
            u64::from(dev),
            b"\n",
        ),
        EarlyEnd::OutOfMemory => give_all(sink, b"error 7 memory\n", devices),
    }
}

// Prints the line of a refusal.
fn print_refusal<K: Sink<D>, D: Devices>(
    refusal: MountRefusal,
    sink: &mut K,
    devices: &D,
) -> Result<(), Failed>
    ensures ok { K.tells → OnOk result (K.held sink.new ≡ K.held sink.old ++ refusal_line refusal) }
    ensures failed { K.tells → OnErr result (GivesPrefix (refusal_line refusal) (K.held sink.old)
        (K.held sink.new)) }
    ensures cause { CountsFaults result (K.faults sink.old) (K.faults sink.new) }
{
    match refusal {
        MountRefusal::NoSuper => give_all(sink, b"mount refused 1\n", devices),
        MountRefusal::Version => give_all(sink, b"mount refused 2\n", devices),
        MountRefusal::Mixed => give_all(sink, b"mount refused 3\n", devices),
        MountRefusal::BadLayout => give_all(sink, b"mount refused 4\n", devices),
        MountRefusal::NoEntry => give_all(sink, b"mount refused 5\n", devices),
        MountRefusal::MissingEntry(sequence) => {
            give_number(sink, devices, b"mount refused 6 seq ", sequence, b"\n")
        }
        MountRefusal::BadNode(place) => give_place(sink, devices, b"mount refused 7 at ", place),
        MountRefusal::Unsound(check) => give_number(
            sink,
            devices,
            b"mount refused 8 check ",
            u64::from(check),
            b"\n",
        ),
    }
}

// The end of the line that says why a line is bad.
fn bad_end(cause: LineFault) -> &'static [u8]
    ensures { result.now ≡ bad_end cause }
{
    match cause {
        LineFault::BadVerb => b" bad-verb\n",
        LineFault::BadArgs => b" bad-args\n",
        LineFault::BadPath => b" bad-path\n",
        LineFault::BadClient => b" bad-client\n",
    }
}

// Gives a number between two texts.
fn give_number<K: Sink<D>, D: Devices>(
    sink: &mut K,
    devices: &D,
    before: &[u8],
    number: u64,
    after: &[u8],
) -> Result<(), Failed>
    ensures ok { K.tells → OnOk result (K.held sink.new ≡ K.held
        sink.old ++ (before.now ++ decimal number ++ after.now)) }
    ensures failed { K.tells → OnErr result (GivesPrefix (before.now ++ decimal number ++ after.now)
        (K.held sink.old) (K.held sink.new)) }
    ensures cause { CountsFaults result (K.faults sink.old) (K.faults sink.new) }
{
    give_all(sink, before, devices)?;
    let mut buffer = Buffer::new();
    give_all(sink, buffer.format(number).as_bytes(), devices)?;
    give_all(sink, after, devices)
}

// Gives a place behind a text, as the device and the block, and ends the line.
fn give_place<K: Sink<D>, D: Devices>(
    sink: &mut K,
    devices: &D,
    before: &[u8],
    place: Place,
) -> Result<(), Failed>
    ensures ok { K.tells → OnOk result (K.held sink.new ≡ K.held
        sink.old ++ (before.now ++ decimal place.dev ++ codes ":" ++ decimal place.block ++ codes "\n")) }
    ensures failed { K.tells → OnErr result (GivesPrefix
        (before.now ++ decimal place.dev ++ codes ":" ++ decimal place.block ++ codes "\n")
        (K.held sink.old) (K.held sink.new)) }
    ensures cause { CountsFaults result (K.faults sink.old) (K.faults sink.new) }
{
    give_number(sink, devices, before, u64::from(place.dev), b":")?;
    give_number(sink, devices, b"", u64::from(place.block), b"\n")
}

impl From<TakeFault> for EarlyEnd {
    ghost use Rattle.std.specs.Prelude.{◌≡◌};
    ghost use Rattle.shell.specs.EarlyEnds.{end_of_take};

    ghost from_gives = { λ fault end. end ≡ end_of_take fault };

    fn from(fault: TakeFault) -> Self {
        match fault {
            TakeFault::ReadFault => EarlyEnd::Source,
            TakeFault::TooLong => EarlyEnd::TooLong,
            TakeFault::NoMemory => EarlyEnd::OutOfMemory,
        }
    }
}

impl From<ScriptFault> for EarlyEnd {
    ghost use Rattle.std.specs.Prelude.{◌≡◌};
    ghost use Rattle.shell.specs.EarlyEnds.{end_of_script};

    ghost from_gives = { λ fault end. end ≡ end_of_script fault };

    fn from(fault: ScriptFault) -> Self {
        match fault {
            ScriptFault::Bad { line, cause } => EarlyEnd::BadLine(line, cause),
            ScriptFault::NoMemory => EarlyEnd::OutOfMemory,
        }
    }
}

impl From<WordsFault> for EarlyEnd {
    ghost use Rattle.std.specs.Prelude.{◌≡◌};
    ghost use Rattle.shell.specs.EarlyEnds.{end_of_arguments};

    ghost from_gives = { λ fault end. end ≡ end_of_arguments fault };

    fn from(fault: WordsFault) -> Self {
        match fault {
            WordsFault::Usage => EarlyEnd::Usage,
            WordsFault::NoMemory => EarlyEnd::OutOfMemory,
        }
    }
}

impl From<MountFault> for EarlyEnd {
    ghost use Rattle.std.specs.Prelude.{◌≡◌};
    ghost use Rattle.shell.specs.EarlyEnds.{end_of_mount};

    ghost from_gives = { λ fault end. end ≡ end_of_mount fault };

    fn from(fault: MountFault) -> Self {
        match fault {
            MountFault::NoSuper => EarlyEnd::Refused(MountRefusal::NoSuper),
            MountFault::Version => EarlyEnd::Refused(MountRefusal::Version),
            MountFault::Mixed => EarlyEnd::Refused(MountRefusal::Mixed),
            MountFault::BadLayout => EarlyEnd::Refused(MountRefusal::BadLayout),
            MountFault::NoEntry => EarlyEnd::Refused(MountRefusal::NoEntry),
            MountFault::MissingEntry(sequence) => {
                EarlyEnd::Refused(MountRefusal::MissingEntry(sequence))
            }
            MountFault::BadNode(place) => EarlyEnd::Refused(MountRefusal::BadNode(place)),
            MountFault::Unsound(check) => EarlyEnd::Refused(MountRefusal::Unsound(check)),
            MountFault::DeviceFault(dev) => EarlyEnd::Device(dev),
            MountFault::NoMemory => EarlyEnd::OutOfMemory,
        }
    }
}

impl From<DiskFault> for EarlyEnd {
    ghost use Rattle.std.specs.Prelude.{◌≡◌};
    ghost use Rattle.shell.specs.EarlyEnds.{end_of_disk};

    ghost from_gives = { λ fault end. end ≡ end_of_disk fault };

    fn from(fault: DiskFault) -> Self {
        match fault {
            DiskFault::DeviceFault(dev) => EarlyEnd::Device(dev),
            DiskFault::NoMemory => EarlyEnd::OutOfMemory,
        }
    }
}
