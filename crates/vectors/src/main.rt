// The outside vectors, run through four services: data/cases.bin has cases of implementations of documents 01 and 02 that share nothing with this one, those of
// document 01 alone and then those of the requests in turn, but for cases that a later request answers otherwise, and the file stdout what they answered.
// tests/outside runs the newest request's cases through every service.
// A case is the service in one byte (0 read, 1 search, 2 check, 3 evaluate), then three buffers, each its length in four bytes, low byte first, and its bytes:
// the sheet; the grouping or the list; the store. A line of output is the service, the answer as four numbers, and a checksum of the second and of the third
// buffer after the call. The program compares nothing itself.
#![tactic(auto)]

ghost use Rattle.std.specs.Prelude.{◌≤◌, length, IfOk};

use numbers::Numbers;
use std::fs::File;
use std::io::{BufReader, Bytes, Read, Write};
use std::{fmt, io};

// The most cases that are run, so that there is an end to them whatever the file has.
const MOST_CASES: u32 = 100000;

fn main(rt: HostRuntime) -> io::Result<()> {
    let file = File::open(&rt, "cases.bin")?;
    let mut from = BufReader::new(rt.alloc(), file)?.bytes();
    cases(&mut from, &mut io::writer(&rt))
}

// The service of a case.
#[derive(Clone, Copy, Debug, PartialEq, Eq)]
enum Service {
    Read,
    Search,
    Check,
    Evaluate,
}

// A byte that is no service's.
#[derive(Clone, Copy, Debug, PartialEq, Eq)]
struct UnknownService(u8);

impl TryFrom<u8> for Service {
    type Error = UnknownService;

    fn try_from(byte: u8) -> Result<Self, UnknownService> {
        match byte {
            0 => Ok(Service::Read),
            1 => Ok(Service::Search),
            2 => Ok(Service::Check),
            3 => Ok(Service::Evaluate),
            _ => Err(UnknownService(byte)),
        }
    }
}

// The byte again.
impl fmt::Display for Service {
    fn fmt<W: fmt::Write>(&self, f: &mut fmt::Formatter<W>) -> fmt::Result {
        f.write_str(match self {
            Service::Read => "0",
            Service::Search => "1",
            Service::Check => "2",
            Service::Evaluate => "3",
        })
    }
}

// All cases. A byte that is no service's ends them, as the end of the file does.
fn cases<R: Read + Drop>(from: &mut Bytes<R>, out: &mut impl Write) -> io::Result<()> {
    for _ in 0..MOST_CASES {
        let Ok(service) = Service::try_from(byte(from)?) else {
            break;
        };
        case(from, service, out)?;
    }
    Ok(())
}

// One case, read whole and run: the call, and its line.
fn case<R: Read + Drop>(
    from: &mut Bytes<R>,
    service: Service,
    out: &mut impl Write,
) -> io::Result<()> {
    let mut sheet = [0; 4096];
    let mut second = [0; 8192];
    let mut third = [0; 8192];
    let sheet = buffer(from, &mut sheet)?;
    let second = buffer(from, &mut second)?;
    let third = buffer(from, &mut third)?;
    let answer = call(service, sheet, second, third);
    say(service, answer, second, third, out)
}

// The next byte; 255 at the end of the file, in a buffer too, so that a file that breaks off is run as far as it goes, as it always was.
fn byte<R: Read + Drop>(from: &mut Bytes<R>) -> io::Result<u8> {
    from.next().unwrap_or(Ok(255))
}

// A buffer's length and its bytes, put at the start of a place for them; these, or none where it has no room for them.
fn buffer<'a, R: Read + Drop>(from: &mut Bytes<R>, place: &'a mut [u8]) -> io::Result<&'a mut [u8]>
    ensures { IfOk result (λ part. length part.now ≤ length place.entry.now) }
{
    let n = two_bytes(from)?;
    two_bytes(from)?;
    let Some(bytes) = place.get_mut(..n) else {
        return Ok(&mut []);
    };
    for put in bytes.iter_mut() {
        *put = byte(from)?;
    }
    Ok(bytes)
}

fn two_bytes<R: Read + Drop>(from: &mut Bytes<R>) -> io::Result<usize> {
    let bytes = [byte(from)?, byte(from)?];
    Ok(u16::from_le_bytes(bytes) as usize)
}

fn call(service: Service, sheet: &[u8], second: &mut [u8], third: &mut [u8]) -> Numbers {
    match service {
        Service::Read => lihumbay::lihumbay_read(sheet),
        Service::Search => lihumbay::lihumbay_search(sheet, second, third),
        Service::Check => lihumbay::lihumbay_check(sheet, second),
        Service::Evaluate => lihumbay::lihumbay_evaluate(sheet, second),
    }
}

fn say(
    service: Service,
    answer: Numbers,
    second: &[u8],
    third: &[u8],
    out: &mut impl Write,
) -> io::Result<()> {
    writeln!(
        out,
        "{service} {} {} {} {} {} {}",
        answer.check,
        answer.first,
        answer.second,
        answer.third,
        checksum(second),
        checksum(third),
    )
}

// The sum of (position from 1) × byte, modulo 65,521: a byte is counted once for each position up to its own, so from the last byte down the sums of what
// was passed are summed.
fn checksum(bytes: &[u8]) -> u64 {
    let mut sum = 0;
    let mut passed = 0;
    for byte in bytes.iter().rev() {
        passed = (passed + u64::from(*byte)) % 65521;
        sum = (sum + passed) % 65521;
    }
    sum
}
