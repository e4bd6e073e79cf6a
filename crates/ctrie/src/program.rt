//! The program's words, its files, and what it ends with.

ghost use Rattle.std.specs.Prelude.{◌≡◌, ◌≢◌, ◌⊎◌, IfOk, IfErr};
ghost use Rattle.std.specs.IoError.{error_kind};
ghost use Rattle.counted_io.specs.Counts.{failures};
ghost use Rattle.ctrie.specs.Outcomes.{exit_status_of};

use crate::outcomes::{Outcome, carry_out};
use ctrie_commands::{Counted, Fault};
use ctrie_words::request_of;
use std::fs::File;
use std::io::ErrorKind;
use std::rt::{Env, Files};
use std::sync::Wait;
use std::thread::Threads;
use std::{env, io};

/// Carries out what the program's words ask for, on the file that they name and on standard output, and tells on
/// standard error what stands in the way. Returns the exit status of what came out.
pub(crate) fn answer<R: AllocGlobal + Env + Eprint + Files + Print + Threads + Wait + Sync>(
    rt: &R,
) -> u8
    ensures { (outcome : _) × (result ≡ exit_status_of outcome) }
{
    told(rt, run(rt))
}

/// Tells a fault on standard error, and returns the exit status: 0 for a script that was carried out and for a legal order,
/// 3 for another order or where none is legal, 4 where that isn't known, else what the fault tells.
fn told<R: Eprint>(rt: &R, outcome: Result<Outcome, Fault>) -> u8
    ensures { result ≡ exit_status_of outcome }
{
    match outcome {
        Ok(Outcome::Done | Outcome::Legal) => 0,
        Ok(Outcome::NotLegal) => 3,
        Ok(Outcome::Unknown) => 4,
        Err(fault) => {
            let _ = eprintln!(rt; "{fault}");
            fault.status()
        }
    }
}

/// Carries out what the program's words ask for, on the file that they name and on standard output.
fn run<R: AllocGlobal + Env + Files + Print + Threads + Wait + Sync>(
    rt: &R,
) -> Result<Outcome, Fault> {
    let words = words_of(rt)?;
    let Some(request) = request_of(rt.alloc(), words.as_slice())? else {
        return Err(Fault::Usage);
    };
    let mut input = opened(rt, request.path())?;
    let mut output = Counted::new(io::writer(rt));
    carry_out(rt, rt.alloc(), request, &mut input, &mut output)
}

/// The program's words. One that isn't UTF-8 is no word of a command.
fn words_of<R: AllocGlobal + Env>(rt: &R) -> Result<Vec<String>, Fault>
    ensures { IfErr result (λ fault. (fault ≡ Fault.Usage) ⊎ (fault ≡ Fault.Memory)) }
{
    match env::args(rt) {
        Ok(words) => Ok(words.collect(rt.alloc())?),
        Err(error) => Err(fault_of(&error, Fault::Usage)),
    }
}

/// The file, of which no call has failed.
fn opened<R: Files>(rt: &R, path: &str) -> Result<Counted<R::File>, Fault>
    ensures none { IfOk result (λ input. failures input ≡ 0) }
    ensures faults { IfErr result (λ fault. (fault ≡ Fault.Read) ⊎ (fault ≡ Fault.Memory)) }
{
    match File::open(rt, path) {
        Ok(file) => Ok(Counted::new(file)),
        Err(error) => Err(fault_of(&error, Fault::Read)),
    }
}

/// Want of memory, or another fault.
fn fault_of(error: &io::Error, other: Fault) -> Fault
    ensures memory { error_kind error.now ≡ ErrorKind.OutOfMemory → result ≡ Fault.Memory }
    ensures other { error_kind error.now ≢ ErrorKind.OutOfMemory → result ≡ other }
{
    if error.kind() == ErrorKind::OutOfMemory {
        Fault::Memory
    } else {
        other
    }
}
