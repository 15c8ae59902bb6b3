//! Programs of which each token in turn is left out, doubled, swapped with the next or replaced.

use c_text::{CTextFault, read};
use flow_base::Place;
use std::alloc::{AllocError, Global};
use std::test::Fail;

/// The tokens of five programs, each after what is told where it is left out, where it stands twice, where
/// it is swapped with the next, and where it is replaced by each of `KINDS`: `o` where the text is read,
/// else `s`, `n` or `p` for syntax, number or profile, and how many tokens later that is, if any. The
/// answers come from a slow reader of two grammars, that of the profile and that of C99.
const PROGRAMS: &str = r#"os1ossnpsos2oosssssssssssssssssss static
ooossnpsos1sosssssssssssssssssss const
os1ossnpsos1sosssssssssssssssssss unsigned
os1s1s1snpsossossssssssssssssspsss short
ss1sosnpss1sss1ssssssssssssssspsss x
ss1sssnpsssssssss1ss2ssss1s1sossssss =
ss1sponpsssssssspssspssssssppspp 3
ss1sssnpsssssssspspsssos1spppppsp ,
ss1sosnpsssssssssssssssssssspsss y
ss1sssnpsssssssss1sossss1s1ss2ssssss [
ps1pponpsssssssspsspsssssssppspp 2
ps1pssnpsssssssspspossssspppppsp ]
ss1sssnpsssssssssspssss1s1sossssss =
pp1pppnpsssssssspsssossssssppspp {
ss1sponpsssssssspssspssssssppspp 1
ps1pssnpsssssssspspsss1osspppppsp ,
op1p1ps1npsssssssspsssps1sssssppspp -
ss1sponpsssssssspssssssssssppspp 2
os1s2ssnpsssssssspspsss1osspppppsp ,
ss1sps1npsssssssspsssposssssppspp }
ss1sssnpsssssssssssssss1ossssssss ;
ss1sssnpsoos1s1sssssssssssssssssss int
ss1sosnpssss1s1ssssssssssssssspsss f
ss1sssnpssssssssoss1ssss1s2ss1ssssss (
ss1sssnpsop1ps1sssss2ssssssssssssss int
ss1ss1snpsssps1sssss1s1sssossssss1sss ,
ss1sssnpsopps1sssssssssssssssssss char
op1os1snpsssposssss1s1ssss2sssssosss *
oos1s1snpssssosssss1pssss1ssssspsss const
os1s1osnpssssosssss2pssss1ssssspsss p
ss1sssnpssssssssps1psssosssssssss ,
ss1sssnpsopps1sssssssssssssssssss short
os1p1osnpsosposssss1s1ssss1sssssp1sss a
ss1sssnpssssssssps1ossss1sssssssss [
ss1sppnpsssssssspssosssssssppspp ]
s1s1s1ssnpsssssssssopssss1sssssssss )
ss1sssnpsssssssssssspsos1ssssssss ,
ss1sosnpsssssssssssssssssssspsss g
ss1sssnpssssssssoss1ssss1s2ss1ssssss (
os1s1ssnpsoops1sssss1ssssssssssssss void
ss1spsnpsssppssssopssspssssspsss )
ss1sssnpsssssssssssssss1ossssssss ;
ss1sssnpsoos1s1sssssssssssssssssss void
ss1sosnpssss1s1ssssssssssssssspsss h
ss1sssnpssssssssospsssppspssssss (
ss1sssnpss1s1ps1ssssossssssssssssss )
ss1ossnpsssssssssssss1ss1ossssssss ;

ss1sssnpsoos1s1sssssssssssssssssss int
ss1sosnpssss1s1ssssssssssssssspsss f
ss1sssnpssssssssoss1ssss1s4ss1ssssss (
ss1sssnpsop1ps1sssss1ssssssssssssss int
p5s1s1osnpssspp6sssss2s1ssss1sssssp6sss n
ss1sssnpssssssssps1s1sssosssssssss ,
ss1sssnpsopps1sssssssssssssssssss char
op1s1s1snpsssposssss1p1ssss1sssssosss *
p1s1s1osnpssssp2sssss1pssss1ssssspsss p
ss1sssnpsssssssspopssss1sssssssss )
ss62sssnpssssssssssssoss1p6ssssssss {
p3s1s1s1s1npsopps1s1psp2sssp4s1sp4sssp2p4sp4p4 int
ss1sosnpsssps1ssssssssssssssss1sss i
ss1sssnpsssssssspss2ssss1p2sossssss =
ss1soonpsssssssss1ssspssssssps1ss1s1 0
s2s1s1ssnpsssssssspsp3sssop6sppps3pss3 ,
op1s1s1snpssssssssssssssssssssosss *
ss1sosnpsssss1ssssssssssssssspsss q
ss1sssnpsssssssspspssss1p3sossssss =
oos2s1s1npssssssssp2ssspssssssposoo &
ss1soonpsssssssss1ssssssssssps1ss1s1 i
ss1sssnpsssssssspsp5sssos6sppps5pss5 ,
ss1sosnpsssssssssssssssssssss1sss a
ss1sssnpsssssssspsossss1s2ss2ssssss [
ps1pponpsssssssspsspsssssssppspp 2
ps1pssnpsssssssspspossssspppppsp ]
ss1sssnpsssssssssspssss1p3sossssss =
pp1pppnpsssssssspsssossssssppspp {
ss1sponpsssssssspssspssssssppspp 1
ss1sssnpsssssssspspsss1osspppppsp ,
os1s1ponpsssssssspsssps1sssssppspp 'c'
ss1sssnpsssssssspspssos1sspppppsp }
sosssnpsssssssssssssss1ossssssss ;
p1s1s1s1s1npsopps1s1pss2sssp2s1sp2sssop2sp2p2 char
ss1sosnpsssps1ssssssssssssssss1sss c
sosssnpsssssssspsp1sssoosp3ssssss ;
oop1s1s1npsopps1s1psp2ssss35s1sosssp2osoo *
ss1soonpsssssssss1ssssssssssps1ss1s1 q
ps1pssnpsssssssspss11sssppsoopppsp =
ss11ss1s1npssssssssossssssssssps1ss1s1 (
ss1soonpsopss1ssss1ssssssssssps1ss1s1 short
ss1sssnpss1sss1ssssopssssssssss1sss )
ooos1s1npsssssssss7ssssssssssposoo -
os1s2oonpsssssssss6ssssssssssposoo n
sosssnpsssssssspss5ssspp5ssspopso +
ss1soonpsssssssss1ssssssssssps1ss1s1 a
ss1sssnpsssssssspsosssps2sssps2pss2 [
ss1soonpsssssssss1ssssssssssps1ss1s1 i
ss1sssnpsssssssspss1osspssppps1pss1 ]
sosssnpsssssssspsp2sssposssps2pss2 ;
ss1soonpss1pps1s1pss1ssss1s1ss1ssss1s1ss1s1 p
s1s1s1ssnpsssssssss6ss6sssppsoop1ppsp =
ss6ss1s1npssssssssossssssssssps1ss1s1 (
s1s1s1s2s2npsopss1ssss2ssssssssssps2ss2s2 char
op1ossnpssssosssss1psssssssssosss *
ss1sssnpsssss1ssssopssssssssspsss )
ss1soonpsssssssss1ssssssssssps1ss1s1 q
sosssnpsssssssspsp5sssposssps5pss5 ;
ss1soonpss1pps1s1pss1ssss1s1ss1ssss1s1ss1s1 a
ss1sssnpsssssssss2sosssppss2s2s1ppsp [
ss1soonpsssssssss1ssssssssssps1ss1s1 0
ps1pssnpsssssssspss1osspssppps1pss1 ]
ss1sssnpsssssssspss3sssppsoos1ppsp <<=
oos1s1s1npsssssssss2ssssssssssposoo ~
ss1soonpsssssssss1ssssssssssps1ss1s1 n
sosssnpsssssssspss1sssposppps1pss1 ;
p2s1s1p1p1npsopps1s1pss3sssp3s1sp3sssop3sp3p3 return
oos2s1s1npsssssssss2ssssssp2sssposoo *
ss1soonpsssssssss1ssssssssssps1ss1s1 p
sosssnpsssssssspss1sssposppps1pss1 ;
ss1os1s1npss1pps1s1pss1ssss1oss1ssss1s1ss1s1 }

ss1sssnpsoos1s1sssssssssssssssssss void
ss1sosnpssss1s1ssssssssssssssspsss f
ss1sssnpssssssssospsssppspssssss (
ss1sssnpsop1ps1sssss1ssssssssssssss int
p1s1s1osnpssspp2sssss1s1ssss1sssssp2sss n
ss1sssnpsssssssspos1ssss1sssssssss )
ss54sssnpssssssssssssoss1s1ssssssss {
p1s1s1s2p1npss1pps1s2pss3sssp2s1sp2ssss2s3ss3s3 for
sp2sssnpssssssssosssssssssssssss (
os1s1s1s1npsopps1sssp2ssssssp2sssp2osoo int
ss1sosnpsssps1ssssssssssssssss1sss i
ss1sssnpsssssssspss2ssss1p4sossssss =
ss1soonpsssssssss1ssspssssssps1ss1s1 0
sp3sssnpsssssssspsp4ssss2ospppp4psp4 ;
ss1soonpsssssssss1sssssss1sssps1ss1s1 i
ss1sssnpsssssssspsp2ssspp2spppooso <
ss1soonpsssssssss1ssssssssssps1ss1s1 n
ss1sssnpsssssssspsp6ssspp6ssspp6osp6 &&
ooop1p1npsssssssss8sssssssssspp5sop5 !
s5s8p1s1s1npssssssssossssssssssps6ss6s6 (
ss1soonpss1pss1ssss1ssssssssssps1ss1s1 n
ss1sssnpssssssssps1p2ssspsspppooso ==
ss1soonpsssssssss1ssssssssssps1ss1s1 3
ss1sssnpssssssssps1s2ssspsssspooso ||
ss1soonpsssssssss1ssssssssssps1ss1s1 i
ss1sssnpsssssssspos1ssspssssps1s1ss1 )
ss1sssnpsssssssspspsssposssppp2sp ;
s1s1ooonpssssssssp1s2sssssssssp1p1sp1p1 i
pp1pssnpsssssssss2ps1ssspsss1s1oppsp ++
ss1sssnpsssssssspopssspsspppppsp )
s10s30s1s1s1npssssss1pss1sssosss11ssss1s1ss1s1 {
s3s1s1s4p1npss1pps1s6pss4ssss4s4ss4ssss4s4ss4s4 if
ss4sssnpssssssssosssssssssssssss (
ss1soonpsssssssss1ssssssssssps1ss1s1 n
ss1sssnpsssssssspos1ssspssppps1s1ss1 )
os1s2p1p1npssssss1pss1ssss2sss2ssss1s1ss1s1 continue
ss2sssnpsssssssssssssssossssssss ;
os1s1s1s1npss1pps1s1pos1ssss22s4sossss1s1ss1s1 else
os1s2p1p1npssssss1pss1ssss21ssossss1s1ss1s1 break
sosssnpsssssssssssssssossssssss ;
s18s2s1s1s1npss1pps1s1pss1ssss19oss19ssss1s1ss1s1 }
os12s5s1s1npss1pps1s1pss1ssss18s1sossss1s1ss1s1 do
s3s18s1s2s2npssssss1psp1sssosss1sssp1p1sp1p1 {
p1p1os1s1npsopps1s1pss2sssp2s1sp2sssop2sp2p2 --
ss1soonpsssssssss1ssssssssssps1ss1s1 n
sosssnpsssssssspss1ssspospppppsp ;
s12s1s1s1s1npss1pps1s1pss1ssss13oss13ssss1s1ss1s1 }
ss1sssnpsssssossssssssssssssssss while
ss4sssnpssssssssosssssssssssssss (
ss1soonpsssssssss1ssssssssssps1ss1s1 n
ss1sssnpsssssssspos1ssspssppps1s1ss1 )
sosssnpsssssssssssssssossssssss ;
s1s1s1s2p1npss1pps1s2pss2ssss2s1ss2ssss2s2ss2s2 for
ss2sssnpssssssssosssssssssssssss (
s1s2op1p1npss1pps1ssss1ssssssossss1s1ss1s1 ;
ss1ss1s1npsssssssss1ssssssosssps1ss1s1 ;
ss1ss1s1npsssssssss1ossssssssss1s1ss1s1 )
soss1s1npssssss1pss1ssss2ssossss1s1ss1s1 ;
ss1os1s1npss1pps1s1pss1ssss1oss1ssss1s1ss1s1 }

ss1sssnpsoos1s1sssssssssssssssssss int
ss1sosnpssss1s1ssssssssssssssspsss f
ss1sssnpssssssssoss1ssss1s3ss1ssssss (
ss1sssnpsop1ps1sssss1ssssssssssssss int
p1s1s1osnpssspp2sssss1s1ssss1sssssp2sss n
ss1sssnpsssssssspos1ssss1sssssssss )
ss37sssnpssssssssssssoss1s1ssssssss {
s5s1s1s6p1npss1pps1p7pss6ssss6s1ss6ssss6s6ss6s6 switch
ss6sssnpssssssssosssssssssssssss (
os1s2oonpsssssssss4ssssssssssposoo n
sosssnpsssssssspp1s2ssspsspppopso +
ss1soonpsssssssss1ssssssssssps1ss1s1 1
ss1sssnpsssssssspos1ssspssssps1pss1 )
pp2pppnpsssssppspsssosspsssppspp {
s1s1s1s1s1npss1pps1s1oss2ssss2s2ss2ssss2s2ss2s2 case
ss1sponpsssssssspssssssssssppspp 1
ss1sssnpsssssssspspsssssosspppsp :
s2s1s1p1p1npssssss1oss3ssss3sss3ssss3s3ss3s3 case
op1p1ps1npsssssssspssssssssssppspp -
ss1sponpsssssssspssssssssssppspp 2
ss1sssnpsssssssspspsssssosspppsp :
ss1soonpssssss1s1ss1ssss1sss1ssss1s1ss1s1 n
ss1sssnpsssssssss2ss2sssppsoos1ppsp =
ss1soonpsssssssss1ssssssssssps1ss1s1 0
sosssnpsssssssspss1sssposppps1pss1 ;
os1s2p1p1npss1pps1s1s1ss1sssp2p2sossss1s1ss1s1 break
sosssnpsssssssssssssssossssssss ;
ss1ss1s1npss1pps1s1s1ss1ssss1s1ss1ssss1s1ss1s1 default
ss1sssnpssssssssssssssssosssssss :
soss1s1npssssss1s1sp1ssss13ssossss1s1ss1s1 ;
p1s1s1s1s1npsopps1s1p1ss2sssp2p2sp2sssop2sp2p2 int
ss1sosnpsssps1ssssssssssssssss1sss k
sosssnpsssssssspss1ssss1oss1ssssss ;
p3s1s1op1npss1pps1op1ss4sssp4p4sp4sssop4sp4p4 if
ss4sssnpssssssssosssssssssssssss (
ss1soonpsssssssss1ssssssssssps1ss1s1 n
ss1sssnpsssssssspos1ssspssppps1s1ss1 )
soss1s1npssssss1pss1ssss5ssossss1s1ss1s1 ;
s3s2s1s1s1npss1pps1s1s1s4s1ssss4oss4ssss1s1ss1s1 }
os1s2p1p1npss1pps1s1pss1ssss3s1sossss1s1ss1s1 return
soss1s1npsssssssss1ssssssosssps1ss1s1 ;
ss1os1s1npss1pps1s1pss1ssss1oss1ssss1s1ss1s1 }

ss1sssnpsoos1s1sssssssssssssssssss int
ss1sosnpssss1s1ssssssssssssssspsss g
ss1sssnpssssssssoss1ssss1s4ss1ssssss (
ss1sssnpsop1ps1sssss1ssssssssssssss int
p4s1s1osnpssspp5sssss2s1ssss1sssssp5sss a
ss1sssnpssssssssps1s1sssosssssssss ,
ss1sssnpsopps1sssssssssssssssssss int
p1s1s1osnpssspp2sssss1s1ssss1sssssp2sss b
ss1sssnpsssssssspos1ssss1sssssssss )
ss66sssnpssssssssssssoss1p4ssssssss {
os1s1s1s1npsopps1s1psp2ssss64s1sosssp2osoo int
ss1sosnpsssps1ssssssssssssssss1sss x
ss1sssnpsssssssspsp1sssp2osossssss =
p2s1s2op1npssssssssp3ssspsssssspp3sp3p3 g
sp3sssnpssssssssosp2ssss4p2sppps4pss4 (
ss1soonpsssssssss1s3sssssssssps1ss1s1 a
ss1sssnpssssssssps1s4sssosspppopso ,
os1s2oonpsssssssss4ssssssssssposoo b
sosssnpssssssssps1s2sssosspppopso *
ss1soonpsssssssss1ssssssssssps1ss1s1 2
ss1sssnpsssssssspos1ssss1ssssps1pss1 )
sosssnpsssssssspspsssoospppppsp ;
ss1soonpss1pps1s1pss1ssss1s1ss1ssss1s1ss1s1 x
ss1sssnpssssssssp2sp2sssppsop2s1ppsp =
p2s1s2op1npssssssssp3sssssssssspp3sp3p3 g
sp3sssnpssssssssosp2ssspp2spppp2psp2 (
ss1soonpsssssssss1p1sssssssssps1ss1s1 x
ss1sssnpssssssssps1s2sssosspppopso ,
ss1soonpsssssssss1ssssssssssps1ss1s1 1
ss1sssnpsssssssspos1ssss1ssppps1pss1 )
sosssnpsssssssspspssspospppppsp ;
p2s1s2op1npss1pps1p3psp3sssp3s1sp3sssp3p3sp3p3 g
sp3sssnpssssssssosp2sssppsp2p2s1ppsp (
ss1soonpsssssssss1p1sssssssssps1ss1s1 0
ss1sssnpssssssssps1s2sssosspppopso ,
ss1soonpsssssssss1ssssssssssps1ss1s1 x
ss1sssnpsssssssspos1ssss1ssppps1pss1 )
sosssnpsssssssspspssspospppppsp ;
p2s1s1p3p1npss1pps1p3psp3sssp3s1sp3sssp3p3sp3p3 for
sp3sssnpssssssssosssssssssssssss (
p2s1s2op1npss1pps1sssp3ssssssp3sssp3p3sp3p3 g
sp3sssnpssssssssosp2sssppsp2p2s1ppsp (
ss1soonpsssssssss1p1sssssssssps1ss1s1 1
ss1sssnpssssssssps1s2sssosspppopso ,
ss1soonpsssssssss1ssssssssssps1ss1s1 2
ss1sssnpsssssssspos1ssss1ssppps1pss1 )
ss3sssnpsssssssspspssspospppppsp ;
os1s2oonpsssssssss1sssssss1sssps1ss1s1 x
ss1sssnpsssssssspsp2ssspospppp2p2sp2 ;
s1s1p3op1npsssssssss2s2ssssssssss2s2ss2s2 h
ps2pssnpssssssssops1ssspsss1s1s2ppsp (
s1s2os2s2npsssssssss1osssssssssps1ss1s1 )
ss1sssnpsssssssspopssspsspppppsp )
s3s1s1s4p1npsssssopss4ssss4sss4ssss4s4ss4s4 while
ss4sssnpssssssssosssssssssssssss (
ss1soonpsssssssss1ssssssssssps1ss1s1 x
ss1sssnpsssssssspop2ssspssppps2s2ss2 )
ss1soonpssssss1pss1ssss1sss1ssss1s1ss1s1 x
os1s1ssnpsssssssss6ss6sssppsoop1ppsp +=
s3s6p1s1s1npssssssssossssssssssps4ss4s4 (
ss1soonpss1pss1ssss1ssssssssssps1ss1s1 a
ss1sssnpssssssssps1s2ssspsspppopso |
ss1soonpsssssssss1ssssssssssps1ss1s1 b
ss1sssnpsssssssspos1ssspssssps1pss1 )
sosssnpsssssssspss1sssposppps1pss1 ;
os1s1s1s1npsp2pps1s1psp2ssss9s1sosssp2p2sp2p2 return
p2s1s2op1npssssssssp3ssssssp3ssspp3sp3p3 g
sp3sssnpssssssssosp2ssspp2spppp2psp2 (
ss1soonpsssssssss1p1sssssssssps1ss1s1 a
ss1sssnpssssssssps1s2sssosspppopso ,
ss1soonpsssssssss1ssssssssssps1ss1s1 2
ss1sssnpsssssssspos1ssss1ssppps1pss1 )
sosssnpsssssssspspssspospppppsp ;
ss1os1s1npss1pps1s1pss1ssss1oss1ssss1s1ss1s1 }"#;

/// A token of each kind: names, numbers, what has no place, what is no token, words, marks.
const KINDS: &str =
    "x 7 2147483648 goto $ int void static const while case else ( ) [ ] { } , ; : = += ++ * && ! +";

/// What is done to the token with a number.
#[derive(Clone, Copy)]
enum Edit<'a> {
    LeaveOut,
    Double,
    SwapWithNext,
    Replace(&'a str),
}

fn token_at(program: &str, number: usize) -> &str {
    let row = program.lines().nth(number).unwrap_or("");
    row.split(' ').nth(1).unwrap_or("")
}

fn push_token(text: &mut String, token: &str) -> Result<(), AllocError> {
    if !token.is_empty() {
        text.push_str(token)?;
        text.push('\n')?;
    }
    Ok(())
}

// The token of this number as it is edited, and that after it where they are swapped.
fn push_edited(
    text: &mut String,
    program: &str,
    number: usize,
    edit: Edit<'_>,
) -> Result<(), AllocError> {
    let token = token_at(program, number);
    match edit {
        Edit::LeaveOut => Ok(()),
        Edit::Double => {
            push_token(text, token)?;
            push_token(text, token)
        }
        Edit::SwapWithNext => {
            push_token(text, token_at(program, number.saturating_add(1)))?;
            push_token(text, token)
        }
        Edit::Replace(other) => push_token(text, other),
    }
}

// The tokens of the program, of which one is edited, each in a line of its own.
fn edited(
    alloc: Global,
    program: &str,
    number: usize,
    edit: Edit<'_>,
) -> Result<String, AllocError> {
    let swaps = match edit {
        Edit::SwapWithNext => true,
        _ => false,
    };
    let mut text = String::new(alloc);
    for (i, row) in program.lines().enumerate() {
        if i == number {
            push_edited(&mut text, program, number, edit)?;
        } else if !(swaps && i == number.saturating_add(1)) {
            push_token(&mut text, row.split(' ').nth(1).unwrap_or(""))?;
        }
    }
    Ok(text)
}

// How many tokens later the place is than the token of this number.
fn push_distance(
    row: &mut String,
    alloc: Global,
    place: &Place,
    number: usize,
) -> Result<(), AllocError> {
    let first = (number as u64).saturating_add(1);
    match place.line.checked_sub(first) {
        Some(0) => Ok(()),
        Some(later) => row.push_str(format!(in alloc; "{later}")?.as_str()),
        None => row.push('?'),
    }
}

fn push_answer(
    row: &mut String,
    alloc: Global,
    text: &str,
    number: usize,
) -> Result<(), AllocError> {
    match read(alloc, text.as_bytes()) {
        Ok(_) => row.push('o'),
        Err(CTextFault::Syntax(place)) => {
            row.push('s')?;
            push_distance(row, alloc, &place, number)
        }
        Err(CTextFault::Number(place)) => {
            row.push('n')?;
            push_distance(row, alloc, &place, number)
        }
        Err(CTextFault::OutOfProfile(place, _)) => {
            row.push('p')?;
            push_distance(row, alloc, &place, number)
        }
        Err(_) => row.push('?'),
    }
}

// What is told of each edit of the token.
fn answers(alloc: Global, program: &str, number: usize) -> Result<String, AllocError> {
    let mut row = String::new(alloc);
    for edit in [Edit::LeaveOut, Edit::Double, Edit::SwapWithNext] {
        let text = edited(alloc, program, number, edit)?;
        push_answer(&mut row, alloc, &text, number)?;
    }
    for kind in KINDS.split(' ') {
        let text = edited(alloc, program, number, Edit::Replace(kind))?;
        push_answer(&mut row, alloc, &text, number)?;
    }
    Ok(row)
}

#[test]
fn each_token_is_edited(rt: HostRuntime) -> Result<(), Fail> {
    let alloc = rt.alloc();
    for program in PROGRAMS.split("\n\n") {
        for (number, row) in program.lines().enumerate() {
            let due = row.split(' ').next().unwrap_or("");
            let found = answers(alloc, program, number)?;
            assert_eq!(rt; found.as_str(), due, "{row}");
        }
    }
    Ok(())
}
