//! Words that are a command, and words that are none.

use crate::tables::hold;
use std::alloc::{AllocError, Global};
use std::test::Fail;
use sweet_words::{
    AnalyseWords, CacheWords, Command, Merging, ProgramFile, WordsFault, WorstWords, read,
};

// The words of a line, with a comma between two of them.
fn words_of(alloc: Global, line: &str) -> Result<Vec<String>, AllocError> {
    let mut words = Vec::new(alloc);
    if line == "(no words)" {
        return Ok(words);
    }
    for word in line.split(',') {
        words.push(String::from_str(alloc, word)?)?;
    }
    Ok(words)
}

// Where states are merged.
fn merging_word(merging: Merging) -> &'static str {
    match merging {
        Merging::Never => "none",
        Merging::Exits => "exits",
        Merging::Joins => "joins",
    }
}

// The language of the program's file.
fn language(program: ProgramFile<'_>) -> &'static str {
    match program {
        ProgramFile::Alf(_) => "",
        ProgramFile::C(_) => " of C",
    }
}

// The name of the program's file.
fn name<'a>(program: ProgramFile<'a>) -> &'a str {
    match program {
        ProgramFile::Alf(name) => name,
        ProgramFile::C(name) => name,
    }
}

// What most commands are given. A file that is left out is a dash.
fn given(
    alloc: Global,
    program: ProgramFile<'_>,
    root: &str,
    inputs: Option<&str>,
    costs: Option<&str>,
) -> Result<String, AllocError> {
    let (inputs, costs) = (inputs.unwrap_or("-"), costs.unwrap_or("-"));
    format!(in alloc;
        "{} {} {root} {inputs} {costs}",
        language(program),
        name(program)
    )
}

// What `analyse` was given.
fn analyse_told(alloc: Global, of: AnalyseWords<'_>) -> Result<String, AllocError> {
    let given = given(alloc, of.program, of.root, of.inputs, of.costs)?;
    let merging = merging_word(of.merging);
    let cert = if of.certified { " cert" } else { "" };
    format!(in alloc; "analyse{given} {} {merging} {}{cert}", of.turns, of.pivots)
}

// What `cache` was given: what `analyse` is, and the cache.
fn cache_told(alloc: Global, of: CacheWords<'_>) -> Result<String, AllocError> {
    let given = given(alloc, of.program, of.root, of.inputs, of.costs)?;
    let cache = format!(in alloc; "{} {} {} {}", of.sets, of.ways, of.line, of.penalty)?;
    format!(in alloc;
        "cache{given} {} {} {cache}",
        of.turns,
        merging_word(of.merging)
    )
}

// What `worst` was given: what `analyse` is, and the splits.
fn worst_told(alloc: Global, of: WorstWords<'_>) -> Result<String, AllocError> {
    let given = given(alloc, of.program, of.root, of.inputs, of.costs)?;
    let merging = merging_word(of.merging);
    format!(in alloc;
        "worst{given} {} {merging} {} {}",
        of.turns, of.pivots, of.splits
    )
}

// What a command with a report or with turns was given, or another one.
fn other_told(alloc: Global, command: Command<'_>) -> Result<String, AllocError> {
    match command {
        Command::Check(of) => {
            let given = given(alloc, of.program, of.root, of.inputs, of.costs)?;
            format!(in alloc; "check{given} {}", of.report)
        }
        Command::Replay(of) => {
            let given = given(alloc, of.program, of.root, of.inputs, of.costs)?;
            format!(in alloc; "replay{given} {} {}", of.report, of.values.unwrap_or("-"))
        }
        Command::Run(of) => {
            let given = given(alloc, of.program, of.root, of.inputs, of.costs)?;
            format!(in alloc; "run{given} {}", of.turns)
        }
        Command::Lower(of) => format!(in alloc; "lower {} {}", of.file, of.root),
        Command::Print(of) => format!(in alloc; "print{} {}", language(of), name(of)),
        Command::Generate(number) => format!(in alloc; "generate {number}"),
        Command::Migrate(report) => format!(in alloc; "migrate {report}"),
        Command::Tasks(file) => format!(in alloc; "tasks {file}"),
        _ => String::from_str(alloc, "another command"),
    }
}

/// What the words are, where they are a command: its name, and what it was given.
pub fn command_told(alloc: Global, asked: &str) -> Result<String, AllocError> {
    let words = words_of(alloc, asked)?;
    match read(alloc, &words) {
        Ok(Command::Analyse(of)) => analyse_told(alloc, of),
        Ok(Command::Cache(of)) => cache_told(alloc, of),
        Ok(Command::Worst(of)) => worst_told(alloc, of),
        Ok(command) => other_told(alloc, command),
        Err(WordsFault::Usage) => String::from_str(alloc, "no command"),
        Err(WordsFault::Memory) => String::from_str(alloc, "memory"),
    }
}

// Words, and what they are: the command, the program's file, the root and the files of inputs and of costs, and then
// what the command alone is given.
static COMMANDS: &str = "\
93 words
analyse,a.alf => analyse a.alf main - - 100000 joins 1000
analyse,a.alf,--turns,24 => analyse a.alf main - - 24 joins 1000
analyse,a.alf,--turns=24 => analyse a.alf main - - 24 joins 1000
analyse,--turns,24,a.alf => analyse a.alf main - - 24 joins 1000
analyse,--turns=24,a.alf => analyse a.alf main - - 24 joins 1000
analyse,a.alf,--turns,1 => analyse a.alf main - - 1 joins 1000
analyse,a.alf,--turns,1000000 => analyse a.alf main - - 1000000 joins 1000
analyse,a.alf,--turns,000002 => analyse a.alf main - - 2 joins 1000
analyse,a.alf,--turns,00000000000000000002 => analyse a.alf main - - 2 joins 1000
analyse,--,a.alf => analyse a.alf main - - 100000 joins 1000
analyse,a.alf,-- => analyse a.alf main - - 100000 joins 1000
analyse,--turns,24,--,-a.alf => analyse -a.alf main - - 24 joins 1000
analyse,--,--turns => analyse --turns main - - 100000 joins 1000
analyse,--,-- => analyse -- main - - 100000 joins 1000
analyse,- => analyse - main - - 100000 joins 1000
analyse, => analyse  main - - 100000 joins 1000
analyse,analyse => analyse analyse main - - 100000 joins 1000
analyse,a.C => analyse a.C main - - 100000 joins 1000
analyse,a.c => analyse of C a.c main - - 100000 joins 1000
analyse,.c => analyse of C .c main - - 100000 joins 1000
analyse,c => analyse c main - - 100000 joins 1000
analyse,a.c.alf => analyse a.c.alf main - - 100000 joins 1000
analyse,a.cc => analyse a.cc main - - 100000 joins 1000
analyse,--,-a.c => analyse of C -a.c main - - 100000 joins 1000
analyse,a.c,--inputs,i.toml,--root=f,--merge,none => analyse of C a.c f i.toml - 100000 none 1000
analyse,a.alf,--root,f => analyse a.alf f - - 100000 joins 1000
analyse,a.alf,--root=~ !f => analyse a.alf ~ !f - - 100000 joins 1000
analyse,a.alf,--root=-f => analyse a.alf -f - - 100000 joins 1000
analyse,a.alf,--costs,c.toml => analyse a.alf main - c.toml 100000 joins 1000
analyse,--costs,c.toml,--turns=7,a.alf,--root,g => analyse a.alf g - c.toml 7 joins 1000
analyse,a.alf,--inputs,i.toml => analyse a.alf main i.toml - 100000 joins 1000
analyse,--inputs=-,a.alf,--costs,c => analyse a.alf main - c 100000 joins 1000
analyse,a.alf,--merge,none => analyse a.alf main - - 100000 none 1000
analyse,--merge=exits,a.alf => analyse a.alf main - - 100000 exits 1000
analyse,a.alf,--merge,joins => analyse a.alf main - - 100000 joins 1000
analyse,--merge,none,--turns=9,--inputs,i,--root,f,a.alf,--costs=c => analyse a.alf f i c 9 none 1000
analyse,a.alf,--pivots,1 => analyse a.alf main - - 100000 joins 1
analyse,--pivots=4000,a.alf => analyse a.alf main - - 100000 joins 4000
analyse,a.alf,--pivots,00000000000000004000 => analyse a.alf main - - 100000 joins 4000
analyse,--merge=none,--pivots,12,a.alf,--turns=9 => analyse a.alf main - - 9 none 12
run,a.alf => run a.alf main - - 100000
run,a.alf,--inputs,i.toml => run a.alf main i.toml - 100000
run,a.alf,--inputs=a.c => run a.alf main a.c - 100000
run,--turns,3,--costs,c,--root,f,--inputs,i,a.alf => run a.alf f i c 3
run,a.alf,--inputs=i,--root=f,--costs=c,--turns=3 => run a.alf f i c 3
run,--inputs,a.alf,a.alf => run a.alf main a.alf - 100000
run,a.c => run of C a.c main - - 100000
run,a.c,--root,f => run of C a.c f - - 100000
run,a.C => run a.C main - - 100000
run,c,--inputs,a.c => run c main a.c - 100000
lower,a.c => lower a.c main
lower,a.c,--root,f => lower a.c f
lower,--root=f,a.c => lower a.c f
lower,a.c,--root=~ => lower a.c ~
lower,.c => lower .c main
lower,a.alf.c => lower a.alf.c main
lower,--,-a.c => lower -a.c main
lower,--root,a.alf,a.c => lower a.c a.alf
print,a.alf => print a.alf
print,--,a.alf => print a.alf
print,--,-a.alf => print -a.alf
print,- => print -
print, => print\x20
print,a b.alf => print a b.alf
print,c => print c
print,a.C => print a.C
print,a.c => print of C a.c
print,.c => print of C .c
print,--,-a.c => print of C -a.c
analyse,a.alf,--cert => analyse a.alf main - - 100000 joins 1000 cert
analyse,--cert,a.c,--pivots,7 => analyse of C a.c main - - 100000 joins 7 cert
check,a.alf,r.txt => check a.alf main - - r.txt
check,a.c,r.txt,--root,f,--inputs=i,--costs,c => check of C a.c f i c r.txt
check,--costs=c,a.alf,--,-r => check a.alf main - c -r
replay,a.alf,r.txt => replay a.alf main - - r.txt -
replay,a.c,r.txt,--at,v,--root,f,--inputs=i,--costs,c => replay of C a.c f i c r.txt v
replay,--at=v,a.alf,--,-r => replay a.alf main - - -r v
generate,1 => generate 1
generate,40 => generate 40
generate,007 => generate 7
generate,--,3 => generate 3
migrate,r.txt => migrate r.txt
migrate,a.c => migrate a.c
migrate,--,-r => migrate -r
cache,a.alf,--sets,1,--ways,2,--line,16,--penalty,10 => cache a.alf main - - 100000 joins 1 2 16 10
cache,--penalty=0,--line=4,--ways=1,--sets=1,a.c => cache of C a.c main - - 100000 joins 1 1 4 0
cache,--sets,1024,--ways,16,--line,4096,--penalty,4294967295,a => cache a main - - 100000 joins 1024 16 4096 4294967295
cache,a,--sets,2,--ways,2,--line,32,--penalty,9,--root,f,--turns,5,--merge,none => cache a f - - 5 none 2 2 32 9
worst,a.c => worst of C a.c main - - 100000 joins 1000 16
worst,a.c,--splits,1,--inputs,i,--pivots,9 => worst of C a.c main i - 100000 joins 9 1
worst,--splits=256,a => worst a main - - 100000 joins 1000 256
tasks,t.toml => tasks t.toml
tasks,t.c => tasks t.c";

#[test]
fn words_are_commands_in_any_order(rt: HostRuntime) -> Result<(), Fail> {
    hold(rt.alloc(), COMMANDS)
}

// Words that are no command. The row with nothing in it has the empty word alone.
static NO_COMMANDS: &str = "\
172 words => no command
analyse

print
a.alf,analyse
Analyse,a.alf
anal,a.alf
prin,a.alf
--,analyse,a.alf
--
help
help,analyse
--help
-h
--version
-V
analyse,--help
analyse,a.alf,-h
analyse,a.alf,--turns
analyse,a.alf,--turns,
analyse,a.alf,--turns=
analyse,a.alf,--turns=5=5
analyse,a.alf,--turns,0
analyse,a.alf,--turns,1000001
analyse,a.alf,--turns,000000000000000000002
analyse,a.alf,--turns,99999999999999999999
analyse,a.alf,--turns,+5
analyse,a.alf,--turns=+5
analyse,a.alf,--turns,-5
analyse,a.alf,--turns=-5
analyse,a.alf,--turns, 5
analyse,a.alf,--turns,5\x20
analyse,a.alf,--turns,5x
analyse,a.alf,--turns,--,5
analyse,--turns,a.alf
analyse,a.alf,--turns,24,--turns,24
analyse,--turns=24,a.alf,--turns=24
analyse,a.alf,--tur,5
analyse,a.alf,--tur=5
analyse,a.alf,--turnss,5
analyse,a.alf,-turns,5
analyse,a.alf,---turns,5
analyse,a.alf,-t,5
analyse,a.alf,--=5
analyse,a.alf,--file,b.alf
analyse,a.alf,a.alf
analyse,-a.alf
analyse,-a.c
analyse,a.c,a.c
analyse,a.alf,--root
analyse,a.alf,--root,-f
analyse,a.alf,--root=
lower,a.c,--root=
run,a.alf,--root,a\"b
check,a.alf,r.txt,--root,a\\b
worst,a.alf,--root,\x7f
cache,a,--sets,2,--ways,2,--line,32,--penalty,9,--root,\x1f
analyse,a.alf,--root,f,--root,f
analyse,a.alf,--inputs
analyse,a.alf,--inputs,-i
analyse,a.alf,--inputs,i,--inputs,i
analyse,a.alf,--costs
analyse,a.alf,--costs,c.toml,--costs,c.toml
run
run,-a.alf
run,a.alf,b.alf
run,a.alf,--turns,0
run,a.alf,--inputs
run,a.alf,--inputs,--costs,c
run,a.alf,--inputs,i,--inputs,i
run,a.alf,--merge,joins
run,a.alf,--input,i
print,a.alf,--root,f
print,a.alf,--inputs,i
run,a.alf,--merge=none
analyse,a.alf,--pivots
analyse,a.alf,--pivots=
analyse,a.alf,--pivots,0
analyse,a.alf,--pivots,4001
analyse,a.alf,--pivots,000000000000000000001
analyse,a.alf,--pivots,+5
analyse,a.alf,--pivots,-5
analyse,a.alf,--pivots=-5
analyse,a.alf,--pivots,5x
analyse,a.alf,--pivots,5,--pivots,5
analyse,a.alf,--pivot,5
run,a.alf,--pivots,5
print,a.alf,--pivots,5
analyse,a.alf,--merge
analyse,a.alf,--merge,
analyse,a.alf,--merge=
analyse,a.alf,--merge,all
analyse,a.alf,--merge,None
analyse,a.alf,--merge,join
analyse,a.alf,--merge, joins
analyse,a.alf,--merge,joins,--merge,joins
analyse,a.alf,--merges,joins
analyse,a.alf,--cert,--cert
analyse,a.alf,--cert=true
analyse,a.alf,--cert,yes
print,a.c,b.c
print,a.c,--root,f
print,-a.c
print,-a.alf
print,a.alf,b.alf
print,a.alf,--turns,5
check,a.alf
check,a.alf,r.txt,s.txt
check,a.alf,r.txt,--turns,5
check,a.alf,r.txt,--cert
check,a.alf,r.txt,--merge,none
run,a.alf,--cert
replay,a.alf
replay,a.alf,r.txt,v
replay,a.alf,r.txt,--turns,5
replay,a.alf,r.txt,--at,v,--at,w
lower
lower,
lower,a.alf
lower,a.C
lower,c
lower,a.c.alf
lower,a.cc
lower,-
lower,--,c
lower,-a.c
lower,a.c,b.c
lower,a.alf,--root,f
lower,a.alf,--root,a.c
lower,a.c,--root
lower,a.c,--root,-f
lower,a.c,--root,f,--root,f
lower,a.c,--turns,5
lower,a.c,--inputs,i
lower,a.c,--costs,c
lower,a.c,--merge,none
lower,a.c,--pivots,5
Lower,a.c
low,a.c
generate
generate,0
generate,41
generate,-1
generate,3,4
generate,3,--turns,5
cache,a.alf
cache,a.alf,--ways,2,--line,16,--penalty,10
cache,a.alf,--sets,1,--line,16,--penalty,10
cache,a.alf,--sets,1,--ways,2,--penalty,10
cache,a.alf,--sets,1,--ways,2,--line,16
cache,a.alf,--sets,0,--ways,2,--line,16,--penalty,10
cache,a.alf,--sets,1025,--ways,2,--line,16,--penalty,10
cache,a.alf,--sets,1,--ways,0,--line,16,--penalty,10
cache,a.alf,--sets,1,--ways,17,--line,16,--penalty,10
cache,a.alf,--sets,1,--ways,2,--line,3,--penalty,10
cache,a.alf,--sets,1,--ways,2,--line,4097,--penalty,10
cache,a.alf,--sets,1,--ways,2,--line,16,--penalty,4294967296
cache,a.alf,--sets,1,--ways,2,--line,16,--penalty,-1
cache,a.alf,--sets,1,--ways,2,--line,16,--penalty,10,--pivots,5
cache,a.alf,--sets,1,--ways,2,--line,16,--penalty,10,--cert
worst
worst,a.alf,--splits,0
worst,a.alf,--splits,257
worst,a.alf,--splits
worst,a.alf,--cert
worst,a.alf,--sets,1
migrate
migrate,r.txt,s.txt
migrate,r.txt,--root,f
tasks
tasks,t.toml,u.toml
tasks,t.toml,--inputs,i
(no words)";

#[test]
fn other_words_are_no_command(rt: HostRuntime) -> Result<(), Fail> {
    hold(rt.alloc(), NO_COMMANDS)
}
