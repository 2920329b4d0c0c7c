// The program `strips`: a job file on standard input, a line for each record on standard output (document 01, "Job file").
//
// Every byte that is printed comes from the crates `jobs` and `lines`; here bytes are read, held and written. At most 64 KiB of input
// are held: whole records are printed and given up, and what is left, the beginning of a record, moves to the front, so that a record
// that lies across any border is read whole. A read or a write that fails ends the run with a message on standard error and no last
// line.
#![tactic(auto)]

ghost use Rattle.std.specs.Prelude.{◌≡◌, ◌≢◌, ◌+◌, ◌≤◌, ◌<◌, length, drop, IfOk, Some};
ghost use Rattle.lines.specs.Sizes.{longest_line};
ghost use Rattle.jobs.specs.Run.{front_of};
ghost use Rattle.jobs.specs.Found.{why_none};
ghost use Rattle.jobs.specs.declared.run.Ended.TheVariants.{Full};

use jobs::{Ended, Run};
use std::io::{Read, Write};
use std::{fmt, io};

// What failed, and why.
#[derive(Drop)]
enum Failure {
    Read(io::Error),
    Write(io::Error),
}

impl fmt::Display for Failure {
    fn fmt<W: fmt::Write>(&self, f: &mut fmt::Formatter<W>) -> fmt::Result {
        match self {
            Failure::Read(error) => write!(f, "read: {error}"),
            Failure::Write(error) => write!(f, "write: {error}"),
        }
    }
}

fn main(rt: HostRuntime) {
    if let Err(failure) = run(&rt) {
        // Where standard error fails too, nobody is left to be told.
        let _ = eprintln!(rt; "strips: {failure}");
    }
}

// Reads and prints until the input or the run ends.
// Stays a buffer and a number: one loop has them, and a struct of the two would have two methods for it.
fn run(rt: &HostRuntime) -> Result<(), Failure> {
    let mut held = [0; 65536];
    let mut room = [0; 65536];
    let mut have = 0;
    let mut run = Run {
        taken: 0,
        written: 0,
        records: 0,
        drawn: 0,
        ended: Ended::More,
    };
    // A proved loop has to end, and nothing says that an input does. No run takes so many turns.
    for _ in 0..u64::MAX {
        let got = read_behind(rt, &mut held, have)?;
        if got == 0 {
            return finish(rt, have, run, &mut room);
        }
        let end = have + got;
        run = print_held(rt, &held[..end], run, &mut room)?;
        if matches!(run.ended, Ended::Stopped) {
            return stop(rt, run, &mut room);
        }
        have = keep(&mut held, run.taken, end);
    }
    Ok(())
}

fn read_behind(rt: &HostRuntime, held: &mut [u8], have: usize) -> Result<usize, Failure>
    requires { have ≤ length held.old }
    ensures { IfOk result (λ got. have + got ≤ length held.old) }
{
    rt.stdin().read(&mut held[have..]).map_err(Failure::Read)
}

// Prints the whole records at the front of the held bytes, a roomful of lines at a time: what the last roomful answered, with all
// that was taken. No whole record is left behind that, and how what is left begins is why the run ended.
fn print_held(rt: &HostRuntime, held: &[u8], before: Run, room: &mut [u8]) -> Result<Run, Failure>
    requires { longest_line ≤ length room.old }
    ensures within { IfOk result (λ run. run.taken ≤ length held.now) }
    ensures left { IfOk result (λ run. why_none (front_of (drop run.taken held.now)) ≡ Some run.ended) }
{
    let mut taken = 0;
    let mut run = before;
    // Stays a `loop`: a roomful takes what `run_held` says that it took.
    loop {
        run = print_some(rt, &held[taken..], run, room)?;
        taken += run.taken;
        if !matches!(run.ended, Ended::Full) {
            return Ok(Run { taken, ..run });
        }
    }
}

// One roomful. The room holds a line, so that a full one took a record.
fn print_some(rt: &HostRuntime, held: &[u8], before: Run, room: &mut [u8]) -> Result<Run, Failure>
    requires { longest_line ≤ length room.old }
    ensures within { IfOk result (λ run. run.taken ≤ length held.now) }
    ensures full_took { IfOk result (λ run. run.ended ≡ Full → 0 < run.taken) }
    ensures left { IfOk result (λ run. run.ended ≢ Full → why_none (front_of (drop run.taken held.now)) ≡ Some run.ended) }
{
    let run = jobs::run_held(held, before.records, before.drawn, room);
    print(rt, &room[..run.written])?;
    Ok(run)
}

// The last line where the run ends at an unknown kind or a cut record.
fn stop(rt: &HostRuntime, run: Run, room: &mut [u8]) -> Result<(), Failure> {
    let n = lines::stop_line(run.records, room);
    print(rt, &room[..n])
}

// The last line where the input ends, between two records or within one.
fn finish(rt: &HostRuntime, have: usize, run: Run, room: &mut [u8]) -> Result<(), Failure> {
    if have > 0 {
        return stop(rt, run, room);
    }
    let n = lines::end_line(run.records, run.drawn, room);
    print(rt, &room[..n])
}

fn print(rt: &HostRuntime, lines: &[u8]) -> Result<(), Failure> {
    rt.stdout().write_all(lines).map_err(Failure::Write)
}

// Moves what is held behind the taken bytes to the front: its count.
fn keep(held: &mut [u8], taken: usize, end: usize) -> usize
    requires taken_le_end { taken ≤ end }
    requires end_in_bounds { end ≤ length held.old }
    ensures { result ≤ end }
{
    held.copy_within(taken..end, 0);
    end - taken
}
