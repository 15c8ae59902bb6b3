//! Costs files of a small program.

use crate::tables::{costs_text, fault_text, loop_program, told_costs};
use cost_table::{Costs, costs};
use std::test::Fail;

// A file, ` => `, and what is told of it.
const FILES: &str = "\
# nothing => costs 1 1 1 1 | 1
default=2;[[cost]];function=\"main\";block=2;cost=5 => costs 2 2 5 2 | 2
default=2;[[cost]];function=\"main\";block=4;cost=5 => cell 0
[[cost]];function=\"leaf\";block=0;cost=9 => costs 1 1 1 1 | 9
cost=[] => costs 1 1 1 1 | 1
cost=[{function=\"main\",block=1,cost=7},{cost=8,block=3,function=\"main\"}] => costs 1 7 1 8 | 1
cost=[] ;default=3 => costs 3 3 3 3 | 3
[[cost]];\"function\"='main';\"block\"=0x3;'cost'=1_000 => costs 1 1 1 1000 | 1
[[cost]];function=\"\\u006dain\";block=+0;cost=0b101 => costs 5 1 1 1 | 1
default=0 => costs 0 0 0 0 | 0
default=4294967295 => costs 4294967295 4294967295 4294967295 4294967295 | 4294967295
default=4294967296 => key -
default=-1 => key -
default=9223372036854775807 => key -
default=-9223372036854775808 => key -
default=9223372036854775808 => toml
default=\"1\" => key -
default=1.0 => key -
default=inf => key -
default=true => key -
default=1979-05-27 => key -
default=07:32:00 => key -
default=[1] => key -
default={x=1} => key -
default.x=1 => key -
[default] => key -
default=1;default=1 => toml
cost=1 => key -
cost=[1] => key -
cost=[{},1] => key -
cost=\"main\" => key -
cost=1.5 => key -
cost=true => key -
cost=1979-05-27T07:32:00Z => key -
cost={} => key -
cost.function=\"main\" => key -
[cost];function=\"main\";block=0;cost=1 => key -
[[cost.x]] => key -
costs=[] => key -
input=[] => key -
Default=1 => key -
x=1;[[cost]];function=\"main\" => key -
[[cost]];function=\"main\";block=0;cost=1;[x] => key -
default=-1;[[cost]];function=\"main\" => key -
[[cost]];block=9;[[input]] => key -
[[ => toml
[[cost]];function= => toml
[[cost]] => key 0
[[cost]];block=0;cost=1 => key 0
[[cost]];function=\"main\";cost=1 => key 0
[[cost]];function=\"main\";block=0 => key 0
[[cost]];function=\"main\";block=0;cost=1;count=1 => key 0
[[cost]];Function=\"main\";block=0;cost=1 => key 0
[[cost]];function=1;block=0;cost=1 => key 0
[[cost]];function=1.0;block=0;cost=1 => key 0
[[cost]];function=true;block=0;cost=1 => key 0
[[cost]];function=1979-05-27;block=0;cost=1 => key 0
[[cost]];function=[\"main\"];block=0;cost=1 => key 0
[[cost]];function={x=\"main\"};block=0;cost=1 => key 0
[[cost]];function.x=\"main\";block=0;cost=1 => key 0
[[cost]];function=\"main\";block=\"0\";cost=1 => key 0
[[cost]];function=\"main\";block=0.0;cost=1 => key 0
[[cost]];function=\"main\";block=false;cost=1 => key 0
[[cost]];function=\"main\";block=1979-05-27T07:32:00;cost=1 => key 0
[[cost]];function=\"main\";block=[0];cost=1 => key 0
[[cost]];function=\"main\";block={};cost=1 => key 0
[[cost]];function=\"main\";block.x=0;cost=1 => key 0
[[cost]];function=\"main\";block=0;cost=\"1\" => key 0
[[cost]];function=\"main\";block=0;cost=1e0 => key 0
[[cost]];function=\"main\";block=0;cost=nan => key 0
[[cost]];function=\"main\";block=0;cost=true => key 0
[[cost]];function=\"main\";block=0;cost=07:32:00 => key 0
[[cost]];function=\"main\";block=0;cost=[] => key 0
[[cost]];function=\"main\";block=0;[cost.cost] => key 0
[[cost]];function=\"main\";block=0;cost={x=1} => key 0
[[cost]];function=\"main\";function=\"main\";block=0;cost=1 => toml
[[cost]];function=\"main\";block=0;cost=0 => costs 0 1 1 1 | 1
[[cost]];function=\"main\";block=0;cost=-0 => costs 0 1 1 1 | 1
[[cost]];function=\"main\";block=0;cost=4294967295 => costs 4294967295 1 1 1 | 1
[[cost]];function=\"main\";block=0;cost=4294967296 => range 0
[[cost]];function=\"main\";block=0;cost=-1 => range 0
[[cost]];function=\"main\";block=0;cost=9223372036854775807 => range 0
[[cost]];function=\"main\";block=0;cost=-9223372036854775808 => range 0
[[cost]];function=\"main\";block=0;cost=9223372036854775808 => toml
[[cost]];function=\"main\";block=0;cost=-9223372036854775809 => toml
[[cost]];function=\"main\";block=18446744073709551616;cost=1 => toml
[[cost]];function=\"main\";block=3;cost=6 => costs 1 1 1 6 | 1
[[cost]];function=\"main\";block=-1;cost=6 => cell 0
[[cost]];function=\"main\";block=4294967296;cost=6 => cell 0
[[cost]];function=\"main\";block=9223372036854775807;cost=6 => cell 0
[[cost]];function=\"main\";block=-9223372036854775808;cost=6 => cell 0
[[cost]];function=\"leaf\";block=1;cost=6 => cell 0
[[cost]];function=\"Main\";block=0;cost=6 => cell 0
[[cost]];function=\"\";block=0;cost=6 => cell 0
[[cost]];function=\"mai\";block=0;cost=6 => cell 0
[[cost]];function=\"main \";block=0;cost=6 => cell 0
[[cost]];function=\"i\";block=0;cost=6 => cell 0
[[cost]];function=\"H\";block=0;cost=6 => cell 0
[[cost]];function=\"none\";block=0;cost=-1 => range 0
[[cost]];function=\"none\";block=\"0\";cost=-1 => key 0
[[cost]];function=\"none\";block=0;cost=1;[[cost]];function=\"main\";block=0 => cell 0
[[cost]];function=\"main\";block=0;cost=1;[[cost]];function=\"main\";block=0 => key 1
[[cost]];function=\"main\";block=0;cost=1;[[cost]];function=\"main\";block=0;cost=-1 => range 1
[[cost]];function=\"main\";block=0;cost=1;[[cost]];function=\"main\";block=9;cost=1 => cell 1
[[cost]];function=\"main\";block=0;cost=4;[[cost]];function=\"main\";block=0;cost=5 => costs 5 1 1 1 | 1
[[cost]];function=\"main\";block=0;cost=5;[[cost]];function=\"main\";block=1;cost=6;[[cost]];function=\"main\";block=0;cost=4 => costs 4 6 1 1 | 1
default=7;[[cost]];function=\"main\";block=0;cost=5;[[cost]];function=\"main\";block=0;cost=7 => costs 7 7 7 7 | 7
[[cost]];function=\"main\";block=0;cost=5;[[cost]];function=\"leaf\";block=0;cost=6 => costs 5 1 1 1 | 6";

#[test]
fn each_file_means_its_costs_or_its_first_fault(rt: HostRuntime) -> Result<(), Fail> {
    let alloc = rt.alloc();
    let checked = loop_program(alloc)?;
    for line in FILES.lines() {
        let text = line.split(" => ").nth(0).unwrap_or("");
        let wanted = line.split(" => ").nth(1).unwrap_or("");
        let found = told_costs(alloc, &checked, text)?;
        assert_eq!(rt; found.as_str(), wanted, "{line}");
    }
    Ok(())
}

#[test]
fn bytes_that_are_no_text_are_no_document(rt: HostRuntime) -> Result<(), Fail> {
    let alloc = rt.alloc();
    let checked = loop_program(alloc)?;
    let Err(fault) = costs(alloc, &[0xff], &checked) else {
        return Err("the bytes are read".into());
    };
    assert_eq!(rt; fault_text(alloc, fault)?.as_str(), "toml");
    Ok(())
}

#[test]
fn a_block_that_is_not_there_costs_the_default(rt: HostRuntime) -> Result<(), Fail> {
    let alloc = rt.alloc();
    let checked = loop_program(alloc)?;
    let Ok(costs) = costs(
        alloc,
        b"default=2\n[[cost]]\nfunction=\"main\"\nblock=0\ncost=5",
        &checked,
    ) else {
        return Err("the file is refused".into());
    };
    assert_eq!(rt; costs.of(0, 0), 5);
    assert_eq!(rt; costs.of(0, 4), 2);
    assert_eq!(rt; costs.of(0, 4294967295), 2);
    assert_eq!(rt; costs.of(2, 0), 2);
    assert_eq!(rt; costs.of(4294967295, 0), 2);
    Ok(())
}

#[test]
fn without_a_file_every_block_costs_1(rt: HostRuntime) -> Result<(), Fail> {
    let alloc = rt.alloc();
    let checked = loop_program(alloc)?;
    let costs = Costs::ones(alloc);
    assert_eq!(rt;
        costs_text(alloc, &checked, &costs)?.as_str(),
        "costs 1 1 1 1 | 1"
    );
    assert_eq!(rt; costs.of(0, 4), 1);
    assert_eq!(rt; costs.of(4294967295, 4294967295), 1);
    Ok(())
}
