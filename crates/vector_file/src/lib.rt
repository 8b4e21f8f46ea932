// Stored vectors of the code calls, read from standard input: what a call is given, and what it must answer and leave in
// the output lent to it. models/vectors/make.c says how a record is laid out.
#![tactic(auto)]

ghost use Rattle.std.specs.Prelude.{◌≡◌, ◌+◌, ◌≤◌, ℕ, List, length, drop, OnErr};
ghost use Rattle.std.specs.Counts.{IsPrefixLen};
ghost use Rattle.std.specs.Io.{ReadsAtMost};
ghost use Rattle.std.specs.Io.KnownBytes.{Consumes};

use std::array;
use std::io::{self, Read};

// Room for the longest part of a record, and for the output.
const ROOM: usize = 512;

// The bytes with which a record begins, none at the end of the input. The only error is that of a read, as in
// `streams::read_full`.
pub fn read_header<R: Read, const N: usize>(input: &mut R) -> io::Result<Option<[u8; N]>>
    ensures { OnErr result ((bs : List ℕ) × Consumes (R.remaining input.old) (R.remaining input.new) bs) }
{
    let mut bytes = [0u8; N];
    if streams::read_full(input, &mut bytes)? < N {
        return Ok(None);
    }
    Ok(Some(bytes))
}

// The bytes of a header that are not taken yet.
#[derive(Drop)]
pub struct Header<'a> {
    pub left: &'a [u8],
}

impl<'a> Header<'a> {
    // The next N bytes.
    pub fn take<const N: usize>(&mut self) -> [u8; N]
        requires { N ≤ length self.old.left.now }
        ensures { length self.new.left.now + N ≡ length self.old.left.now }
    {
        let (front, left) = self.left.split_first_chunk().unwrap();
        self.left = left;
        *front
    }
}

// The settings and lengths of a record, and the answer that is expected. The first `filled` bytes of the output are
// expected to change, and no others.
#[derive(Clone, Copy)]
pub struct Record {
    pub n: u32,
    pub t: u32,
    pub w: u32,
    pub vector: usize,
    pub checks: usize,
    pub room: usize,
    pub answer: u32,
    pub filled: usize,
}

// The settings and lengths that come next, none at the end of the input. The only error is that of a read, as in
// `streams::read_full`.
pub fn next<R: Read>(input: &mut R) -> io::Result<Option<Record>>
    ensures { OnErr result ((bs : List ℕ) × Consumes (R.remaining input.old) (R.remaining input.new) bs) }
{
    let Some(bytes) = read_header::<R, 22>(input)? else {
        return Ok(None);
    };
    let mut header = Header { left: &bytes };
    Ok(Some(Record {
        n: u32::from_be_bytes(header.take()),
        t: u32::from_be_bytes(header.take()),
        w: u32::from_be_bytes(header.take()),
        vector: usize::from(u16::from_be_bytes(header.take())),
        checks: usize::from(u16::from_be_bytes(header.take())),
        room: usize::from(u16::from_be_bytes(header.take())),
        answer: u32::from(u16::from_be_bytes(header.take())),
        filled: usize::from(u16::from_be_bytes(header.take())),
    }))
}

// Puts so many bytes of the input in front of a buffer, and answers how many it had room for. The only error is that of
// a read, as in `streams::read_full`. The bytes past those that were asked for are kept, whatever comes.
pub fn fill<R: Read>(input: &mut R, buffer: &mut [u8], many: usize) -> io::Result<usize>
    ensures count { ReadsAtMost result buffer.new }
    ensures kept { drop many buffer.new ≡ drop many buffer.old }
    ensures err { OnErr result ((bs : List ℕ) × Consumes (R.remaining input.old) (R.remaining input.new) bs) }
{
    let n = many.min(buffer.len());
    streams::read_full(input, &mut buffer[..n])?;
    Ok(n)
}

// Bytes of a record, in front of zeros.
#[derive(Drop)]
pub struct Part {
    pub room: [u8; ROOM],
    pub many: usize,
    ghost within: { many ≤ 512 },
}

impl Part {
    // So many bytes of the input, or as many as there is room for.
    pub fn read<R: Read>(input: &mut R, many: usize) -> io::Result<Self> {
        let mut room = [0u8; ROOM];
        let many = fill(input, &mut room, many)?;
        Ok(Part { room, many })
    }

    pub fn bytes(&self) -> &[u8]
        ensures { length result.now ≡ self.now.many }
    {
        &self.room[..self.many]
    }
}

// The byte of the output at i before a call.
fn before_call(i: usize) -> u8 {
    ((7 * (i % 256) + 90) % 256) as u8
}

// The output, of which a call is lent so many bytes, or as many as there are.
#[derive(Drop)]
pub struct Output {
    pub room: [u8; ROOM],
    pub many: usize,
}

impl Output {
    // What it is before a call.
    pub fn new(many: usize) -> Self {
        Output {
            room: array::from_fn(before_call),
            many,
        }
    }

    pub fn lent(&mut self) -> &mut [u8]
        ensures { IsPrefixLen (length result.now) self.old.room }
    {
        let many = self.many.min(ROOM);
        &mut self.room[..many]
    }

    // Whether a call filled so many bytes in front, as expected, and kept the others.
    pub fn is_filled(&self, expected: &Part) -> bool {
        let mut right: [u8; ROOM] = array::from_fn(before_call);
        right[..expected.many].copy_from_slice(expected.bytes());
        self.room == right
    }
}

// How many records were read and how many differ, and the number of the first that does.
#[derive(Clone, Copy, Default)]
struct Tally {
    read: u64,
    differ: u64,
    first: u64,
}

impl Tally {
    // One record more.
    fn count(&mut self, agrees: bool) {
        self.read = self.read.wrapping_add(1);
        if !agrees {
            self.differ = self.differ.wrapping_add(1);
            if self.differ == 1 {
                self.first = self.read;
            }
        }
    }

    // Writes a line that names the call.
    fn print<P: Print>(self, to: &P, call: &[u8]) -> io::Result<()> {
        to.write_all(call)?;
        if self.differ == 0 {
            return println!(to; ": {} vectors agree", self.read);
        }
        println!(to;
            ": {} of {} vectors differ, the first is number {}",
            self.differ, self.read, self.first
        )
    }
}

// Takes a step for each record, which answers whether the record agrees, or that there is none, and writes a line that
// names the call and says how many agree.
pub fn run<P: Print + Input, S: FnMut(&mut P::Reader) -> io::Result<Option<bool>>>(
    rt: &P,
    call: &[u8],
    mut step: S,
) -> io::Result<()>
    requires { S.IsAlwaysCallable step }
{
    let mut input = rt.reader();
    let mut tally = Tally::default();
    for _ in 0..u32::MAX {
        let Some(agrees) = step(&mut input)? else {
            break;
        };
        tally.count(agrees);
    }
    tally.print(rt, call)
}
