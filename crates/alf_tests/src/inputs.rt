//! Inputs files of a small program.

use crate::tables::{program, told_inputs};
use std::test::Fail;

// A file, ` => `, and what is told of it.
const FILES: &str = "\
# nothing => rows
[[input]];frame=\"n\";offset=0;size=32;low=0;high=10; => rows 1+0:32[0,10]
[[input]];frame=\"n\";offset=0;size=32;low=11;high=10; => range 0
[[input]];frame=\"m\";offset=0;size=32;low=0;high=10; => cell 0
[[input]];frame=\"n\";offset=0;size=32;lo=0;high=10; => key 0
[[ => toml
input=[] => rows
input=[{frame=\"n\",offset=0,size=32,low=0,high=10}] => rows 1+0:32[0,10]
input.frame=\"n\" => key -
input=1 => key -
input=[1] => key -
input=\"n\" => key -
input=1979-05-27 => key -
input=1.5 => key -
input=true => key -
inputs=[] => key -
default=1 => key -
x=1;[[input]];frame=\"n\" => key -
[[input]];offset=0;size=32;low=0;high=10; => key 0
[[input]];frame=\"n\";size=32;low=0;high=10; => key 0
[[input]];frame=\"n\";offset=0;low=0;high=10; => key 0
[[input]];frame=\"n\";offset=0;size=32;high=10; => key 0
[[input]];frame=\"n\";offset=0;size=32;low=0; => key 0
[[input]];frame=1;offset=0;size=32;low=0;high=10; => key 0
[[input]];frame=\"n\";offset=\"0\";size=32;low=0;high=10; => key 0
[[input]];frame=\"n\";offset=0;size=32.0;low=0;high=10; => key 0
[[input]];frame=\"n\";offset=0;size=32;low=true;high=10; => key 0
[[input]];frame=\"n\";offset=0;size=32;low=0;high=[10]; => key 0
[[input]];frame=\"n\";offset=0;size=32;low=0;high={x=1}; => key 0
[[input]];frame=\"n\";offset=0;size=32;low=0;high=2020-01-01; => key 0
[[input]];frame=\"n\";offset=0;size=32;low=0;high=10;count=\"1\" => key 0
[[input]];frame=\"n\";offset=0;size=32;low=0;high=10;count=1.0 => key 0
[[input]];frame=\"n\";offset=0;size=32;low=0;high=10;cost=1 => key 0
[[input]];frame=\"n\";offset=0;size=32;low.x=0;high=10; => key 0
[[input]];frame=\"n\";offset=0;size=32;low=0;high=9223372036854775808; => toml
[[input]];frame=\"n\";offset=0;size=0;low=0;high=0; => range 0
[[input]];frame=\"n\";offset=0;size=-8;low=0;high=0; => range 0
[[input]];frame=\"n\";offset=0;size=24;low=0;high=0; => range 0
[[input]];frame=\"n\";offset=0;size=128;low=0;high=0; => range 0
[[input]];frame=\"n\";offset=0;size=4294967304;low=0;high=0; => range 0
[[input]];frame=\"n\";offset=0;size=8;low=0;high=0;count=0 => range 0
[[input]];frame=\"n\";offset=0;size=8;low=0;high=0;count=-1 => range 0
[[input]];frame=\"n\";offset=0;size=8;low=0;high=0;count=65536 => cell 0
[[input]];frame=\"n\";offset=0;size=8;low=0;high=0;count=65537 => range 0
[[input]];frame=\"n\";offset=0;size=8;low=0;high=0;count=9223372036854775807 => range 0
[[input]];frame=\"n\";offset=0;size=8;low=-128;high=127; => rows 1+0:8[-128,127]
[[input]];frame=\"n\";offset=0;size=8;low=-129;high=0; => range 0
[[input]];frame=\"n\";offset=0;size=8;low=0;high=255; => rows 1+0:8[0,255]
[[input]];frame=\"n\";offset=0;size=8;low=1;high=256; => range 0
[[input]];frame=\"n\";offset=0;size=8;low=-1;high=254; => rows 1+0:8[-1,254]
[[input]];frame=\"n\";offset=0;size=8;low=-1;high=255; => range 0
[[input]];frame=\"n\";offset=0;size=16;low=-32768;high=32767; => rows 1+0:16[-32768,32767]
[[input]];frame=\"n\";offset=0;size=16;low=-32769;high=0; => range 0
[[input]];frame=\"n\";offset=0;size=16;low=65535;high=65535; => rows 1+0:16[65535,65535]
[[input]];frame=\"n\";offset=0;size=16;low=65535;high=65536; => range 0
[[input]];frame=\"n\";offset=0;size=32;low=-2147483648;high=2147483647; => rows 1+0:32[-2147483648,2147483647]
[[input]];frame=\"n\";offset=0;size=32;low=-2147483649;high=0; => range 0
[[input]];frame=\"n\";offset=0;size=32;low=0;high=4294967295; => rows 1+0:32[0,4294967295]
[[input]];frame=\"n\";offset=0;size=32;low=1;high=4294967296; => range 0
[[input]];frame=\"p\";offset=0;size=64;low=-9223372036854775808;high=9223372036854775807; => rows 3+0:64[-9223372036854775808,9223372036854775807]
[[input]];frame=\"own\";offset=0;size=32;low=0;high=0; => cell 0
[[input]];frame=\"q\";offset=0;size=32;low=0;high=0; => cell 0
[[input]];frame=\"\";offset=0;size=32;low=0;high=0; => cell 0
[[input]];frame=\"n\";offset=3;size=8;low=0;high=0; => rows 1+3:8[0,0]
[[input]];frame=\"n\";offset=4;size=8;low=0;high=0; => cell 0
[[input]];frame=\"n\";offset=1;size=32;low=0;high=0; => cell 0
[[input]];frame=\"n\";offset=-1;size=8;low=0;high=0; => cell 0
[[input]];frame=\"n\";offset=4294967296;size=8;low=0;high=0; => cell 0
[[input]];frame=\"n\";offset=9223372036854775807;size=8;low=0;high=0; => cell 0
[[input]];frame=\"n\";offset=-9223372036854775808;size=8;low=0;high=0; => cell 0
[[input]];frame=\"a\";offset=36;size=16;low=0;high=9;count=2 => rows 2+36:16[0,9] 2+38:16[0,9]
[[input]];frame=\"a\";offset=36;size=16;low=0;high=9;count=3 => cell 0
[[input]];frame=\"n\";offset=0;size=16;low=0;high=1;[[input]];frame=\"n\";offset=2;size=16;low=2;high=3; => rows 1+0:16[0,1] 1+2:16[2,3]
[[input]];frame=\"n\";offset=0;size=16;low=0;high=1;[[input]];frame=\"n\";offset=1;size=16;low=2;high=3; => cell 1
[[input]];frame=\"n\";offset=2;size=16;low=0;high=1;[[input]];frame=\"n\";offset=0;size=32;low=2;high=3; => cell 1
[[input]];frame=\"n\";offset=0;size=32;low=0;high=1;[[input]];frame=\"i\";offset=0;size=32;low=2;high=3; => rows 1+0:32[0,1] 0+0:32[2,3]
[[input]];frame=\"n\";offset=9;size=32;low=0;high=1;[[input]];frame=\"n\";lo=0 => cell 0
[[input]];frame=\"m\";offset=0;size=7;low=0;high=1; => range 0
[[input]];frame=\"m\";offset=0;size=7;low=\"0\";high=1; => key 0
[[input]];frame=\"n\";offset=0;size=32;low=0;high=1;[[input]];frame=\"n\";offset=0;size=7;low=0;high=1; => range 1";

#[test]
fn each_file_means_its_rows_or_its_first_fault(rt: HostRuntime) -> Result<(), Fail> {
    let alloc = rt.alloc();
    let checked = program(alloc)?;
    for line in FILES.lines() {
        let text = line.split(" => ").nth(0).unwrap_or("");
        let wanted = line.split(" => ").nth(1).unwrap_or("");
        let found = told_inputs(alloc, &checked, text)?;
        assert_eq!(rt; found.as_str(), wanted, "{line}");
    }
    Ok(())
}
