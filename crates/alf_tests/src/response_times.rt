//! Response times of task sets, and what a simulation makes of their first jobs.

ghost use Rattle.std.specs.Prelude.{◌<◌};

use crate::simulation::first_ends;
use crate::tables::fault_text;
use cost_table::{Task, tasks};
use response_time::{RespondFault, respond};
use std::alloc::{AllocError, Global};
use std::test::Fail;

// A task set, each task by its cost, period, deadline and priority, ` => `, and its response times, or the first task
// that is late. From Burns and Wellings, Real-Time Systems and Programming Languages, are the sets of costs 12 10 10,
// 32 5 4, 40 10 5, 3 3 5 and 3 3 4 3; from Buttazzo, Hard Real-Time Computing Systems, those of 1 1 2 1 and 2 4; from
// Lehoczky, Sha and Ding 1989 that of 40 40 100, and from Sha and Goodenough 1990 that of 20 40 100. The others are
// worked by hand.
const SETS: &str = "\
1,4,4,1 2,6,6,2 3,12,12,3 => 1 3 10
1,4,4,1 2,6,6,2 3,12,9,3 => late 2
12,50,50,3 10,40,40,2 10,30,30,1 => late 0
32,80,80,3 5,40,40,2 4,16,16,1 => 58 9 4
40,80,80,3 10,40,40,2 5,20,20,1 => 80 15 5
3,7,7,1 3,12,12,2 5,20,20,3 => 3 6 20
3,20,5,1 3,15,7,2 4,10,10,3 3,20,20,4 => 3 6 10 20
1,4,3,1 1,5,4,2 2,6,5,3 1,11,10,4 => 1 2 4 10
2,5,5,1 4,7,7,2 => late 1
40,100,100,1 40,150,150,2 100,350,350,3 => 40 80 300
40,100,100,1 40,150,150,2 100,350,299,3 => late 2
100,350,350,7 40,150,150,5 40,100,100,0 => 300 80 40
20,100,100,1 40,150,150,2 100,350,350,3 => 20 60 240
1,8,8,0 1,8,8,1 1,8,8,2 1,8,8,3 1,8,8,4 1,8,8,5 1,8,8,6 1,8,8,7 => 1 2 3 4 5 6 7 8
1,4,4,1 1,8,8,2 1,8,8,3 2,16,16,4 2,16,16,5 2,32,32,6 2,32,32,7 2,64,64,8 => 1 2 3 6 8 14 16 30
1,1,1,1 1,9,9,2 => late 1
9,4,4,1 => late 0
3,3,2,1 => late 0";

#[test]
fn known_task_sets_have_their_response_times(rt: HostRuntime) -> Result<(), Fail> {
    let alloc = rt.alloc();
    for line in SETS.split('\n') {
        let wanted = part(line, " => ", 1);
        let told = told_times(alloc, part(line, " => ", 0))?;
        assert_eq!(rt; told.as_str(), wanted, "{line}");
    }
    Ok(())
}

// Sets with the greatest numbers, and ones in which the tasks of higher priority leave nothing, or nearly nothing.
const LARGE: &str = "\
4294967295,4294967295,4294967295,0 => 4294967295
4294967295,4294967295,4294967294,0 => late 0
2147483647,4294967295,4294967295,0 2147483648,4294967295,4294967295,4294967295 => 2147483647 4294967295
2147483648,4294967295,4294967295,0 2147483648,4294967295,4294967295,1 => late 1
4294967295,4294967295,4294967295,0 4294967295,4294967295,4294967295,1 4294967295,4294967295,4294967295,2 => late 1
1,1,1,1 1,4294967295,4294967295,2 => late 1
2147483648,2147483648,2147483648,1 1,4294967295,4294967295,2 => late 1
4294967294,4294967295,4294967295,1 1,4294967295,4294967295,2 => 4294967294 4294967295
4294967294,4294967295,4294967295,1 2,4294967295,4294967295,2 => late 1";

#[test]
fn the_greatest_numbers_have_response_times(rt: HostRuntime) -> Result<(), Fail> {
    let alloc = rt.alloc();
    for line in LARGE.split('\n') {
        let told = told_times(alloc, part(line, " => ", 0))?;
        assert_eq!(rt; told.as_str(), part(line, " => ", 1), "{line}");
    }
    Ok(())
}

#[test]
fn the_first_job_of_each_task_ends_at_its_response_time(rt: HostRuntime) -> Result<(), Fail> {
    let alloc = rt.alloc();
    for line in SETS.split('\n') {
        if !part(line, " => ", 1).starts_with("late") {
            let told = simulated(alloc, part(line, " => ", 0))?;
            assert_eq!(rt; told.as_str(), part(line, " => ", 1), "{line}");
        }
    }
    Ok(())
}

// Of 300 sets that a sequence of numbers makes, 95 have no task that is late: another program has counted them.
#[test]
fn a_simulation_ends_each_first_job_at_its_response_time(rt: HostRuntime) -> Result<(), Fail> {
    let alloc = rt.alloc();
    let mut state = 1;
    let mut on_time = 0u32;
    for number in 0..300u64 {
        let set = made_set(alloc, &mut state, number)?;
        let told = told_times(alloc, set.as_str())?;
        if !told.as_str().starts_with("late") {
            let simulated = simulated(alloc, set.as_str())?;
            assert_eq!(rt; told.as_str(), simulated.as_str(), "{set}");
            on_time = on_time.saturating_add(1);
        }
    }
    assert_eq!(rt; on_time, 95);
    Ok(())
}

// A set of three to eight tasks.
fn made_set(alloc: Global, state: &mut u64, number: u64) -> Result<String, AllocError> {
    let count = 3 + number % 6;
    let mut set = String::new(alloc);
    for index in 0..count {
        let period = 4 + drawn(state) % 20;
        let cost = 1 + drawn(state) % (1 + period / count);
        let priority = (index * 5 + number % 11) % 11;
        let space = if index == 0 { "" } else { " " };
        let task = format!(in alloc; "{space}{cost},{period},{period},{priority}")?;
        set.push_str(task.as_str())?;
    }
    Ok(set)
}

// The next number of the sequence.
fn drawn(state: &mut u64) -> u64
    ensures { result < 32768 }
{
    *state = state.wrapping_mul(1103515245).wrapping_add(12345) % 2147483648;
    *state / 65536
}

// The part of this number between two of the marks. Empty where it is not there.
fn part<'a>(text: &'a str, mark: &str, number: usize) -> &'a str {
    text.split(mark).nth(number).unwrap_or("")
}

// The tasks file of a set.
fn task_file(alloc: Global, set: &str) -> Result<String, AllocError> {
    let mut text = String::new(alloc);
    for task in set.split(' ') {
        let entry = format!(in alloc;
            "[[task]]\nname=\"t\"\ncost={}\nperiod={}\ndeadline={}\npriority={}\n",
            part(task, ",", 0),
            part(task, ",", 1),
            part(task, ",", 2),
            part(task, ",", 3)
        )?;
        text.push_str(entry.as_str())?;
    }
    Ok(text)
}

// What is told of a set: its response times, or the first task that is late.
fn told_times(alloc: Global, set: &str) -> Result<String, Fail> {
    let text = task_file(alloc, set)?;
    let told = match tasks(alloc, text.as_bytes()) {
        Ok(tasks) => match respond(alloc, &tasks) {
            Ok(times) => times_text(alloc, &times)?,
            Err(RespondFault::Late(index)) => format!(in alloc; "late {index}")?,
            Err(RespondFault::Memory) => String::from_str(alloc, "memory")?,
        },
        Err(fault) => fault_text(alloc, fault)?,
    };
    Ok(told)
}

// When the first job of each task ends, where all tasks are released at once and then each by its period.
fn simulated(alloc: Global, set: &str) -> Result<String, Fail> {
    let text = task_file(alloc, set)?;
    let told = match tasks(alloc, text.as_bytes()) {
        Ok(tasks) => {
            let ends = first_ends(alloc, &tasks)?;
            times_text(alloc, &ends)?
        }
        Err(fault) => fault_text(alloc, fault)?,
    };
    Ok(told)
}

// The times one after the other.
fn times_text(alloc: Global, times: &[u64]) -> Result<String, AllocError> {
    let mut text = String::new(alloc);
    for time in times {
        let space = if text.as_str().is_empty() { "" } else { " " };
        let one = format!(in alloc; "{space}{time}")?;
        text.push_str(one.as_str())?;
    }
    Ok(text)
}
