//! Tasks files.

use crate::tables::{fault_text, file};
use cost_table::{Task, tasks};
use std::alloc::{AllocError, Global};
use std::test::Fail;

// A file, ` => `, and what is told of it: a task is its name, then cost, period, deadline and priority.
const FILES: &str = "\
# nothing => tasks
task=[] => tasks
[[task]];name='a';cost=1;period=4;deadline=4;priority=1 => tasks a:1/4/4/1
task=[{name='b',cost=2,period=6,deadline=5,priority=7},{priority=0,deadline=9,period=0x9,cost=3,name='a'}] => tasks b:2/6/5/7 a:3/9/9/0
task=[{name='a',cost=1,period=4,deadline=4,priority=1},{name='a',cost=1,period=4,deadline=4,priority=2}] => tasks a:1/4/4/1 a:1/4/4/2
task=[{name='a b~!#[]',cost=1,period=4,deadline=4,priority=1}] => tasks a b~!#[]:1/4/4/1
task=[{name=' ',cost=4294967295,period=4294967295,deadline=4294967295,priority=4294967295}] => tasks  :4294967295/4294967295/4294967295/4294967295
tasks=[] => key -
Task=[] => key -
task=1 => key -
task='a' => key -
task={} => key -
task=[1] => key -
task=[{},1] => key -
[task];name='a';cost=1;period=4;deadline=4;priority=1 => key -
[[task.x]] => key -
[[task]];name='a';[[cost]] => key -
default=1;[[task]];name='a' => key -
[[ => toml
task=[];task=[] => toml
[[task]];cost=9223372036854775808 => toml
[[task]] => key 0
task=[{cost=1,period=4,deadline=4,priority=1}] => key 0
task=[{name='a',period=4,deadline=4,priority=1}] => key 0
task=[{name='a',cost=1,deadline=4,priority=1}] => key 0
task=[{name='a',cost=1,period=4,priority=1}] => key 0
task=[{name='a',cost=1,period=4,deadline=4}] => key 0
task=[{name='a',cost=1,period=4,deadline=4,priority=1,jitter=0}] => key 0
task=[{Name='a',cost=1,period=4,deadline=4,priority=1}] => key 0
task=[{name=1,cost=1,period=4,deadline=4,priority=1}] => key 0
task=[{name=['a'],cost=1,period=4,deadline=4,priority=1}] => key 0
task=[{name='a',cost='1',period=4,deadline=4,priority=1}] => key 0
task=[{name='a',cost=1.0,period=4,deadline=4,priority=1}] => key 0
task=[{name='a',cost=1,period=true,deadline=4,priority=1}] => key 0
task=[{name='a',cost=1,period=4,deadline=[4],priority=1}] => key 0
task=[{name='a',cost=1,period=4,deadline=4,priority={}}] => key 0
task=[{name='',cost=1,period=4,deadline=4}] => key 0
task=[{name='',cost=1,period=4,deadline=4,priority=1}] => range 0
task=[{name='a\"b',cost=1,period=4,deadline=4,priority=1}] => range 0
task=[{name='a\\b',cost=1,period=4,deadline=4,priority=1}] => range 0
task=[{name='a\tb',cost=1,period=4,deadline=4,priority=1}] => range 0
task=[{name=\"a\\u007f\",cost=1,period=4,deadline=4,priority=1}] => range 0
task=[{name=\"a\\u001f\",cost=1,period=4,deadline=4,priority=1}] => range 0
task=[{name=\"\\u00e4\",cost=1,period=4,deadline=4,priority=1}] => range 0
task=[{name='a',cost=0,period=4,deadline=4,priority=1}] => range 0
task=[{name='a',cost=-1,period=4,deadline=4,priority=1}] => range 0
task=[{name='a',cost=4294967296,period=4,deadline=4,priority=1}] => range 0
task=[{name='a',cost=9,period=4,deadline=4,priority=1}] => tasks a:9/4/4/1
task=[{name='a',cost=1,period=0,deadline=0,priority=1}] => range 0
task=[{name='a',cost=1,period=4294967296,deadline=4,priority=1}] => range 0
task=[{name='a',cost=1,period=4,deadline=0,priority=1}] => range 0
task=[{name='a',cost=1,period=4,deadline=5,priority=1}] => range 0
task=[{name='a',cost=1,period=4,deadline=-4,priority=1}] => range 0
task=[{name='a',cost=1,period=4,deadline=4,priority=-1}] => range 0
task=[{name='a',cost=1,period=4,deadline=4,priority=4294967296}] => range 0
task=[{name='a',cost=1,period=4,deadline=4,priority=-9223372036854775808}] => range 0
task=[{name='a',cost=1,period=4,deadline=4,priority=1},{name='b',cost=1,period=4,deadline=4,priority=1}] => range 1
task=[{name='a',cost=1,period=4,deadline=4,priority=1},{name='b',cost=1,period=4,deadline=4,priority=2},{name='c',cost=1,period=4,deadline=4,priority=1}] => range 2
task=[{name='a',cost=0,period=4,deadline=4,priority=1},{name='b'}] => range 0
task=[{name='a',cost=1,period=4,deadline=4,priority=1},{name='b'}] => key 1
task=[{name='a',cost=1,period=4,deadline=4,priority=1},{name='b',cost=0,period=4,deadline=4,priority=2}] => range 1";

#[test]
fn each_file_means_its_tasks_or_its_first_fault(rt: HostRuntime) -> Result<(), Fail> {
    let alloc = rt.alloc();
    for line in FILES.split('\n') {
        let mut parts = line.split(" => ");
        let text = parts.next().unwrap_or("");
        let wanted = parts.next().unwrap_or("");
        let told = told_tasks(alloc, text)?;
        assert_eq!(rt; told.as_str(), wanted, "{line}");
    }
    Ok(())
}

#[test]
fn a_name_has_at_most_64_bytes(rt: HostRuntime) -> Result<(), Fail> {
    let alloc = rt.alloc();
    let longest = "0123456789abcdef0123456789abcdef0123456789abcdef0123456789abcdef";
    let rest = "cost=1;period=4;deadline=4;priority=1";
    let text = format!(in alloc; "[[task]];name='{longest}';{rest}")?;
    let wanted = format!(in alloc; "tasks {longest}:1/4/4/1")?;
    let told = told_tasks(alloc, text.as_str())?;
    assert_eq!(rt; told.as_str(), wanted.as_str());
    let text = format!(in alloc; "[[task]];name='{longest}0';{rest}")?;
    let told = told_tasks(alloc, text.as_str())?;
    assert_eq!(rt; told.as_str(), "range 0");
    Ok(())
}

// So many entries, before some text.
fn entries(alloc: Global, count: u32, first: &str) -> Result<String, AllocError> {
    let mut text = String::from_str(alloc, first)?;
    for number in 0..count {
        let one = format!(in alloc;
            "[[task]];name='t{number}';cost=1;period=99;deadline=99;priority={number};"
        )?;
        text.push_str(one.as_str())?;
    }
    Ok(text)
}

#[test]
fn a_file_has_at_most_64_entries(rt: HostRuntime) -> Result<(), Fail> {
    let alloc = rt.alloc();
    let most = entries(alloc, 64, "")?;
    let told = told_tasks(alloc, most.as_str())?;
    assert!(rt; told.as_str().ends_with("t62:1/99/99/62 t63:1/99/99/63"));
    let more = entries(alloc, 65, "")?;
    let told = told_tasks(alloc, more.as_str())?;
    assert_eq!(rt; told.as_str(), "limit tasks 65");
    let many = entries(alloc, 200, "")?;
    let told = told_tasks(alloc, many.as_str())?;
    assert_eq!(rt; told.as_str(), "limit tasks 65");
    // The limit comes before the faults of entries, and after those of keys at the top.
    let wrong = entries(alloc, 64, "[[task]];cost=0;")?;
    let told = told_tasks(alloc, wrong.as_str())?;
    assert_eq!(rt; told.as_str(), "limit tasks 65");
    let top = entries(alloc, 65, "x=1;")?;
    let told = told_tasks(alloc, top.as_str())?;
    assert_eq!(rt; told.as_str(), "key -");
    Ok(())
}

// What is told of a tasks file: its tasks, or the fault.
fn told_tasks(alloc: Global, line: &str) -> Result<String, Fail> {
    let bytes = file(alloc, line)?;
    let told = match tasks(alloc, &bytes) {
        Ok(tasks) => tasks_text(alloc, &tasks)?,
        Err(fault) => fault_text(alloc, fault)?,
    };
    Ok(told)
}

// The tasks one after the other.
fn tasks_text(alloc: Global, tasks: &[Task]) -> Result<String, AllocError> {
    let mut text = String::from_str(alloc, "tasks")?;
    for task in tasks {
        text.push(' ')?;
        for byte in task.name.bytes() {
            text.push(char::from(*byte))?;
        }
        let numbers = format!(in alloc;
            ":{}/{}/{}/{}",
            task.cost, task.period, task.deadline, task.priority
        )?;
        text.push_str(numbers.as_str())?;
    }
    Ok(text)
}
