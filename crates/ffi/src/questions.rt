// The eight questions, and why a thread isn't running. A caller keeps the system that it asks about, so only what is found is given.
ghost use Rattle.std.specs.Prelude.{◌≡◌};
ghost use Rattle.system.specs.Questions.{occupant_found, stopped_found, number_found, served_found, skipped_found, job_found, lowest_found};
ghost use Rattle.system.specs.Questions.{owing_found};
ghost use Rattle.reason.specs.Why.{why_of};
ghost use Rattle.ffi.specs.Calls.{found_of, found_in, reason_told, reason_found};

use reason::Reason;
use system::System;
use wire::refusal::Refusal;

// A question's refusal number, 0 where it has a value, and that value, 0 where it is refused.
// The layout is that of gjalvorn_found in the C interface.
#[repr(C)]
#[derive(Clone, Copy, PartialEq, Eq, Debug)]
pub struct Found {
    pub refusal: u8,
    pub value: u32,
}

impl From<Result<u32, Refusal>> for Found {
    ghost from_gives = { λ finding found. found ≡ found_of finding };

    fn from(finding: Result<u32, Refusal>) -> Found {
        match finding {
            Ok(value) => Found { refusal: 0, value },
            Err(refusal) => Found {
                refusal: u8::from(refusal),
                value: 0,
            },
        }
    }
}

// A core's occupant, or 255.
// This and each one below is a call of the C interface.
#[unsafe(no_mangle)]
pub extern "C" fn gjalvorn_occupant(system: System, core: u8) -> Found
    ensures { result ≡ found_in (occupant_found system core) }
{
    Found::from(system.occupant(core))
}

// Whether a core is stopped, 1 or 0.
#[unsafe(no_mangle)]
pub extern "C" fn gjalvorn_stopped(system: System, core: u8) -> Found
    ensures { result ≡ found_in (stopped_found system core) }
{
    Found::from(system.stopped(core))
}

// The number of a gang's last release.
#[unsafe(no_mangle)]
pub extern "C" fn gjalvorn_release_number(system: System, gang: u8) -> Found
    ensures { result ≡ found_in (number_found system gang) }
{
    Found::from(system.release_number(gang))
}

// How many of a gang's releases were served.
#[unsafe(no_mangle)]
pub extern "C" fn gjalvorn_served(system: System, gang: u8) -> Found
    ensures { result ≡ found_in (served_found system gang) }
{
    Found::from(system.served(gang))
}

// How many of a gang's releases were skipped.
#[unsafe(no_mangle)]
pub extern "C" fn gjalvorn_skipped(system: System, gang: u8) -> Found
    ensures { result ≡ found_in (skipped_found system gang) }
{
    Found::from(system.skipped(gang))
}

// The number of a gang's current job, 0 before the first.
#[unsafe(no_mangle)]
pub extern "C" fn gjalvorn_job_number(system: System, gang: u8) -> Found
    ensures { result ≡ found_in (job_found system gang) }
{
    Found::from(system.job_number(gang))
}

// The lowest owing core, or 255.
#[unsafe(no_mangle)]
pub extern "C" fn gjalvorn_lowest_owing(system: System) -> Found
    ensures { result ≡ found_in (lowest_found system) }
{
    Found::from(system.lowest_owing())
}

// How many cores owe.
#[unsafe(no_mangle)]
pub extern "C" fn gjalvorn_owing_count(system: System) -> Found
    ensures { result ≡ found_in (owing_found system) }
{
    Found::from(system.owing_count())
}

// Why a thread isn't running: the refusal number, 0 where there is a reason; the reason's number; and the thread or gang that it names,
// 255 where it names none. Where the question is refused the last two are 0.
// The layout is that of gjalvorn_reason_found in the C interface.
#[repr(C)]
#[derive(Clone, Copy, PartialEq, Eq, Debug)]
pub struct ReasonFound {
    pub refusal: u8,
    pub reason: u8,
    pub which: u8,
}

impl From<Result<Reason, Refusal>> for ReasonFound {
    ghost from_gives = { λ explanation found. found ≡ reason_told explanation };

    fn from(explanation: Result<Reason, Refusal>) -> ReasonFound {
        match explanation {
            Ok(reason) => ReasonFound {
                refusal: 0,
                reason: u8::from(reason),
                which: reason.which(),
            },
            Err(refusal) => ReasonFound {
                refusal: u8::from(refusal),
                reason: 0,
                which: 0,
            },
        }
    }
}

// Why a thread isn't running: the first reason that holds.
#[unsafe(no_mangle)]
pub extern "C" fn gjalvorn_why(system: System, thread: u8) -> ReasonFound
    ensures { result ≡ reason_found (why_of system thread) }
{
    ReasonFound::from(reason::why(&system, thread))
}
