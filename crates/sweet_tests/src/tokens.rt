//! The program that returns at once, with another token in place of each one, and cut at each byte.

use crate::tables::hold;
use std::test::Fail;

// The number of a token of the program that returns at once, and what is due where it is a brace, a word, a number
// and a name in its place, and where it is left out.
const TOKENS: &str = r#"print a.alf
a.alf token $0 | {
=> $1
--
print a.alf
a.alf token $0 | word
=> $2
--
print a.alf
a.alf token $0 | 7
=> $3
--
print a.alf
a.alf token $0 | "n"
=> $4
--
print a.alf
a.alf token $0 | 
=> $5
--
analyse a.alf
a.alf token $0 | {
=> $1
--
analyse a.alf
a.alf token $0 | word
=> $2
--
analyse a.alf
a.alf token $0 | 7
=> $3
--
analyse a.alf
a.alf token $0 | "n"
=> $4
--
analyse a.alf
a.alf token $0 | 
=> $5

0 | 0 .. | 2 fault 10 syntax 1 1; | 2 fault 10 syntax 1 1; | 2 fault 10 syntax 1 1; | 2 fault 10 syntax 1 1;
1 | 2 fault 10 syntax 1 3; | 2 fault 12 profile 1 3 "word"; | 2 fault 10 syntax 1 3; | 2 fault 10 syntax 1 3; | 2 fault 10 syntax 1 3;
2 | 0 .. | 2 fault 10 syntax 1 7; | 2 fault 10 syntax 1 7; | 2 fault 10 syntax 1 7; | 2 fault 10 syntax 1 7;
3 | 2 fault 10 syntax 1 9; | 2 fault 12 profile 1 9 "word"; | 2 fault 10 syntax 1 9; | 2 fault 10 syntax 1 9; | 2 fault 10 syntax 1 9;
4 | 2 fault 12 profile 1 20 "macro_defs"; | 2 fault 10 syntax 1 20; | 2 fault 10 syntax 1 20; | 2 fault 10 syntax 1 20; | 2 fault 12 profile 1 20 "macro_defs";
5 | 0 .. | 2 fault 10 syntax 1 22; | 2 fault 10 syntax 1 22; | 2 fault 10 syntax 1 22; | 2 fault 10 syntax 1 22;
6 | 2 fault 10 syntax 1 24; | 2 fault 12 profile 1 24 "word"; | 2 fault 10 syntax 1 24; | 2 fault 10 syntax 1 24; | 2 fault 10 syntax 1 24;
7 | 2 fault 10 syntax 1 40; | 2 fault 10 syntax 1 40; | 2 fault 12 profile 1 40 "7"; | 2 fault 10 syntax 1 40; | 2 fault 10 syntax 1 40;
8 | 2 fault 10 syntax 1 42; | 2 fault 10 syntax 1 42; | 2 fault 10 syntax 1 42; | 2 fault 10 syntax 1 42; | 2 fault 10 syntax 1 42;
9 | 2 fault 10 syntax 1 44; | 2 fault 12 profile 1 44 "word"; | 2 fault 10 syntax 1 44; | 2 fault 10 syntax 1 44; | 2 fault 10 syntax 1 44;
10 | 0 .. | 2 fault 10 syntax 1 58; | 2 fault 10 syntax 1 58; | 2 fault 10 syntax 1 58; | 2 fault 10 syntax 1 58;
11 | 2 fault 10 syntax 1 60; | 2 fault 12 profile 1 60 "word"; | 2 fault 10 syntax 1 60; | 2 fault 10 syntax 1 60; | 2 fault 10 syntax 1 60;
12 | 0 .. | 2 fault 10 syntax 1 68; | 2 fault 10 syntax 1 68; | 2 fault 10 syntax 1 68; | 2 fault 10 syntax 1 68;
13 | 2 fault 10 syntax 1 70; | 2 fault 12 profile 1 70 "word"; | 2 fault 10 syntax 1 70; | 2 fault 10 syntax 1 70; | 2 fault 10 syntax 1 70;
14 | 2 fault 10 syntax 1 78; | 2 fault 10 syntax 1 76; | 2 fault 10 syntax 1 76; | 2 fault 10 syntax 1 76; | 2 fault 12 profile 1 78 "lrefs";
15 | 0 .. | 2 fault 10 syntax 1 78; | 2 fault 10 syntax 1 78; | 2 fault 10 syntax 1 78; | 2 fault 10 syntax 1 78;
16 | 2 fault 10 syntax 1 80; | 2 fault 12 profile 1 80 "word"; | 2 fault 10 syntax 1 80; | 2 fault 10 syntax 1 80; | 2 fault 10 syntax 1 80;
17 | 2 fault 10 syntax 1 88; | 2 fault 10 syntax 1 86; | 2 fault 10 syntax 1 86; | 2 fault 10 syntax 1 86; | 2 fault 10 syntax 1 88;
18 | 2 fault 10 syntax 1 88; | 2 fault 10 syntax 1 88; | 2 fault 10 syntax 1 88; | 2 fault 10 syntax 1 88; | 2 fault 10 syntax 1 88;
19 | 0 .. | 2 fault 10 syntax 1 90; | 2 fault 10 syntax 1 90; | 2 fault 10 syntax 1 90; | 2 fault 10 syntax 1 90;
20 | 2 fault 10 syntax 1 92; | 2 fault 12 profile 1 92 "word"; | 2 fault 10 syntax 1 92; | 2 fault 10 syntax 1 92; | 2 fault 10 syntax 1 92;
21 | 0 .. | 2 fault 10 syntax 1 100; | 2 fault 10 syntax 1 100; | 2 fault 10 syntax 1 100; | 2 fault 10 syntax 1 100;
22 | 2 fault 10 syntax 1 102; | 2 fault 12 profile 1 102 "word"; | 2 fault 10 syntax 1 102; | 2 fault 10 syntax 1 102; | 2 fault 10 syntax 1 102;
23 | 2 fault 12 profile 1 108 "imports"; | 2 fault 10 syntax 1 108; | 2 fault 10 syntax 1 108; | 2 fault 10 syntax 1 108; | 2 fault 12 profile 1 108 "imports";
24 | 0 .. | 2 fault 10 syntax 1 110; | 2 fault 10 syntax 1 110; | 2 fault 10 syntax 1 110; | 2 fault 10 syntax 1 110;
25 | 2 fault 10 syntax 1 112; | 2 fault 12 profile 1 112 "word"; | 2 fault 10 syntax 1 112; | 2 fault 10 syntax 1 112; | 2 fault 10 syntax 1 112;
26 | 2 fault 12 profile 1 118 "imports"; | 2 fault 10 syntax 1 118; | 2 fault 10 syntax 1 118; | 2 fault 10 syntax 1 118; | 2 fault 10 syntax 1 120;
27 | 2 fault 10 syntax 1 120; | 2 fault 10 syntax 1 120; | 2 fault 10 syntax 1 120; | 2 fault 10 syntax 1 120; | 2 fault 10 syntax 1 120;
28 | 0 .. | 2 fault 10 syntax 1 122; | 2 fault 10 syntax 1 122; | 2 fault 10 syntax 1 122; | 2 fault 10 syntax 1 122;
29 | 2 fault 10 syntax 1 124; | 2 fault 12 profile 1 124 "word"; | 2 fault 10 syntax 1 124; | 2 fault 10 syntax 1 124; | 2 fault 10 syntax 1 124;
30 | 2 fault 10 syntax 1 132; | 2 fault 10 syntax 1 130; | 2 fault 10 syntax 1 130; | 2 fault 10 syntax 1 130; | 2 fault 12 profile 1 132 "inits";
31 | 0 .. | 2 fault 10 syntax 1 132; | 2 fault 10 syntax 1 132; | 2 fault 10 syntax 1 132; | 2 fault 10 syntax 1 132;
32 | 2 fault 10 syntax 1 134; | 2 fault 12 profile 1 134 "word"; | 2 fault 10 syntax 1 134; | 2 fault 10 syntax 1 134; | 2 fault 10 syntax 1 134;
33 | 2 fault 10 syntax 1 142; | 2 fault 10 syntax 1 140; | 2 fault 10 syntax 1 140; | 2 fault 10 syntax 1 140; | 2 fault 12 profile 1 142 "funcs";
34 | 0 .. | 2 fault 10 syntax 1 142; | 2 fault 10 syntax 1 142; | 2 fault 10 syntax 1 142; | 2 fault 10 syntax 1 142;
35 | 2 fault 10 syntax 1 144; | 2 fault 12 profile 1 144 "word"; | 2 fault 10 syntax 1 144; | 2 fault 10 syntax 1 144; | 2 fault 10 syntax 1 144;
36 | 0 .. | 2 fault 10 syntax 1 150; | 2 fault 10 syntax 1 150; | 2 fault 10 syntax 1 150; | 2 fault 10 syntax 1 150;
37 | 2 fault 10 syntax 1 152; | 2 fault 12 profile 1 152 "word"; | 2 fault 10 syntax 1 152; | 2 fault 10 syntax 1 152; | 2 fault 10 syntax 1 152;
38 | 0 .. | 2 fault 10 syntax 1 157; | 2 fault 10 syntax 1 157; | 2 fault 10 syntax 1 157; | 2 fault 10 syntax 1 157;
39 | 2 fault 10 syntax 1 159; | 2 fault 12 profile 1 159 "word"; | 2 fault 10 syntax 1 159; | 2 fault 10 syntax 1 159; | 2 fault 10 syntax 1 159;
40 | 2 fault 10 syntax 1 165; | 2 fault 10 syntax 1 165; | 2 fault 12 profile 1 165 "7"; | 2 fault 10 syntax 1 165; | 2 fault 10 syntax 1 165;
41 | 0 .. | 2 fault 10 syntax 1 168; | 2 fault 10 syntax 1 168; | 2 fault 10 syntax 1 168; | 2 fault 10 syntax 1 168;
42 | 2 fault 10 syntax 1 170; | 2 fault 12 profile 1 170 "word"; | 2 fault 10 syntax 1 170; | 2 fault 10 syntax 1 170; | 2 fault 10 syntax 1 170;
43 | 2 fault 10 syntax 1 175; | 2 fault 10 syntax 1 175; | 2 fault 12 profile 1 175 "7"; | 2 fault 10 syntax 1 175; | 2 fault 10 syntax 1 175;
45 | 2 fault 10 syntax 1 185; | 2 fault 10 syntax 1 185; | 2 fault 10 syntax 1 185; | 2 fault 10 syntax 1 185; | 2 fault 10 syntax 1 185;
46 | 0 .. | 2 fault 10 syntax 1 187; | 2 fault 10 syntax 1 187; | 2 fault 10 syntax 1 187; | 2 fault 10 syntax 1 187;
47 | 2 fault 10 syntax 1 189; | 2 fault 12 profile 1 189 "word"; | 2 fault 10 syntax 1 189; | 2 fault 10 syntax 1 189; | 2 fault 10 syntax 1 189;
48 | 2 fault 10 syntax 1 202; | 2 fault 10 syntax 1 202; | 2 fault 12 profile 1 202 "7"; | 2 fault 10 syntax 1 202; | 2 fault 12 profile 1 202 "0";
49 | 2 fault 10 syntax 1 205; | 2 fault 10 syntax 1 205; | 2 fault 12 profile 1 205 "7"; | 2 fault 10 syntax 1 205; | 2 fault 10 syntax 1 205;
50 | 2 fault 10 syntax 1 207; | 2 fault 10 syntax 1 207; | 2 fault 10 syntax 1 207; | 2 fault 10 syntax 1 207; | 2 fault 10 syntax 1 209;
51 | 2 fault 10 syntax 1 209; | 2 fault 10 syntax 1 209; | 2 fault 10 syntax 1 209; | 2 fault 10 syntax 1 209; | 2 fault 10 syntax 1 209;
52 | 0 .. | 2 fault 10 syntax 1 211; | 2 fault 10 syntax 1 211; | 2 fault 10 syntax 1 211; | 2 fault 10 syntax 1 211;
53 | 2 fault 10 syntax 1 213; | 2 fault 12 profile 1 213 "word"; | 2 fault 10 syntax 1 213; | 2 fault 10 syntax 1 213; | 2 fault 10 syntax 1 213;
54 | 2 fault 10 syntax 1 225; | 2 fault 10 syntax 1 223; | 2 fault 10 syntax 1 223; | 2 fault 10 syntax 1 223; | 2 fault 12 profile 1 225 "scope";
55 | 0 .. | 2 fault 10 syntax 1 225; | 2 fault 10 syntax 1 225; | 2 fault 10 syntax 1 225; | 2 fault 10 syntax 1 225;
56 | 2 fault 10 syntax 1 227; | 2 fault 12 profile 1 227 "word"; | 2 fault 10 syntax 1 227; | 2 fault 10 syntax 1 227; | 2 fault 10 syntax 1 227;
57 | 0 .. | 2 fault 10 syntax 1 233; | 2 fault 10 syntax 1 233; | 2 fault 10 syntax 1 233; | 2 fault 10 syntax 1 233;
58 | 2 fault 10 syntax 1 235; | 2 fault 12 profile 1 235 "word"; | 2 fault 10 syntax 1 235; | 2 fault 10 syntax 1 235; | 2 fault 10 syntax 1 235;
59 | 2 fault 10 syntax 1 243; | 2 fault 10 syntax 1 241; | 2 fault 10 syntax 1 241; | 2 fault 10 syntax 1 241; | 2 fault 12 profile 1 243 "inits";
60 | 0 .. | 2 fault 10 syntax 1 243; | 2 fault 10 syntax 1 243; | 2 fault 10 syntax 1 243; | 2 fault 10 syntax 1 243;
61 | 2 fault 10 syntax 1 245; | 2 fault 12 profile 1 245 "word"; | 2 fault 10 syntax 1 245; | 2 fault 10 syntax 1 245; | 2 fault 10 syntax 1 245;
62 | 2 fault 10 syntax 1 253; | 2 fault 10 syntax 1 251; | 2 fault 10 syntax 1 251; | 2 fault 10 syntax 1 251; | 2 fault 12 profile 1 253 "stmts";
63 | 0 .. | 2 fault 10 syntax 1 253; | 2 fault 10 syntax 1 253; | 2 fault 10 syntax 1 253; | 2 fault 10 syntax 1 253;
64 | 2 fault 10 syntax 1 255; | 2 fault 12 profile 1 255 "word"; | 2 fault 10 syntax 1 255; | 2 fault 10 syntax 1 255; | 2 fault 10 syntax 1 255;
65 | 0 .. | 2 fault 10 syntax 1 261; | 2 fault 10 syntax 1 261; | 2 fault 10 syntax 1 261; | 2 fault 10 syntax 1 261;
66 | 2 fault 10 syntax 1 263; | 2 fault 12 profile 1 263 "word"; | 2 fault 10 syntax 1 263; | 2 fault 10 syntax 1 263; | 2 fault 10 syntax 1 263;
67 | 2 fault 10 syntax 1 272; | 2 fault 10 syntax 1 270; | 2 fault 10 syntax 1 270; | 2 fault 10 syntax 1 270; | 2 fault 10 syntax 1 280;
68 | 2 fault 10 syntax 1 274; | 2 fault 10 syntax 1 272; | 2 fault 10 syntax 1 272; | 2 fault 10 syntax 1 272; | 2 fault 10 syntax 1 280;
69 | 2 fault 10 syntax 1 274; | 2 fault 10 syntax 1 274; | 2 fault 10 syntax 1 274; | 2 fault 10 syntax 1 274; | 2 fault 10 syntax 1 280;
70 | 2 fault 10 syntax 1 276; | 2 fault 10 syntax 1 276; | 2 fault 10 syntax 1 276; | 2 fault 10 syntax 1 276; | 2 fault 10 syntax 1 280;
71 | 2 fault 10 syntax 1 280; | 2 fault 10 syntax 1 278; | 2 fault 10 syntax 1 278; | 2 fault 10 syntax 1 278; | 2 fault 10 syntax 1 280;
72 | 2 fault 10 syntax 1 280; | 2 fault 10 syntax 1 280; | 2 fault 10 syntax 1 280; | 2 fault 10 syntax 1 280; | 2 fault 10 syntax 1 280;


print a.alf
a.alf token $0 | {
=> $1
--
print a.alf
a.alf token $0 | word
=> $2
--
print a.alf
a.alf token $0 | 7
=> $3
--
print a.alf
a.alf token $0 | "n"
=> $4
--
print a.alf
a.alf token $0 | 
=> $5
--
analyse a.alf
a.alf token $0 | {
=> $1
--
analyse a.alf
a.alf token $0 | word
=> $2
--
analyse a.alf
a.alf token $0 | 7
=> $3
--
analyse a.alf
a.alf token $0 | 
=> $5

// with another name of the function it is read, and has no root
44 | 2 fault 10 syntax 1 178; | 2 fault 10 syntax 1 178; | 2 fault 10 syntax 1 178; | 0 .. | 2 fault 10 syntax 1 178;"#;

#[test]
fn each_token_counts(rt: HostRuntime) -> Result<(), Fail> {
    hold(rt.alloc(), TOKENS)
}

// After how many bytes the program that returns at once is cut, and where it departs: at a word of which a part is
// left, else at the end.
const CUTS: &str = r#"print a.alf
a.alf cut $0 alf - | - | .

0 => 2 fault 10 syntax 1 1;
1 => 2 fault 10 syntax 1 2;
2 => 2 fault 10 syntax 1 3;
3 => 2 fault 12 profile 1 3 "a";
4 => 2 fault 12 profile 1 3 "al";
5 => 2 fault 10 syntax 1 6;
6 => 2 fault 10 syntax 1 7;
7 => 2 fault 10 syntax 1 8;
8 => 2 fault 10 syntax 1 9;
9 => 2 fault 12 profile 1 9 "m";
10 => 2 fault 12 profile 1 9 "ma";
11 => 2 fault 12 profile 1 9 "mac";
12 => 2 fault 12 profile 1 9 "macr";
13 => 2 fault 12 profile 1 9 "macro";
14 => 2 fault 12 profile 1 9 "macro_";
15 => 2 fault 12 profile 1 9 "macro_d";
16 => 2 fault 12 profile 1 9 "macro_de";
17 => 2 fault 12 profile 1 9 "macro_def";
18 => 2 fault 10 syntax 1 19;
19 => 2 fault 10 syntax 1 20;
20 => 2 fault 10 syntax 1 21;
21 => 2 fault 10 syntax 1 22;
22 => 2 fault 10 syntax 1 23;
23 => 2 fault 10 syntax 1 24;
24 => 2 fault 12 profile 1 24 "l";
25 => 2 fault 12 profile 1 24 "le";
26 => 2 fault 12 profile 1 24 "lea";
27 => 2 fault 12 profile 1 24 "leas";
28 => 2 fault 12 profile 1 24 "least";
29 => 2 fault 12 profile 1 24 "least_";
30 => 2 fault 12 profile 1 24 "least_a";
31 => 2 fault 12 profile 1 24 "least_ad";
32 => 2 fault 12 profile 1 24 "least_add";
33 => 2 fault 12 profile 1 24 "least_addr";
34 => 2 fault 12 profile 1 24 "least_addr_";
35 => 2 fault 12 profile 1 24 "least_addr_u";
36 => 2 fault 12 profile 1 24 "least_addr_un";
37 => 2 fault 12 profile 1 24 "least_addr_uni";
38 => 2 fault 10 syntax 1 39;
39 => 2 fault 10 syntax 1 40;
40 => 2 fault 10 syntax 1 41;
41 => 2 fault 10 syntax 1 42;
42 => 2 fault 10 syntax 1 43;
43 => 2 fault 10 syntax 1 44;
44 => 2 fault 12 profile 1 44 "l";
45 => 2 fault 12 profile 1 44 "li";
46 => 2 fault 12 profile 1 44 "lit";
47 => 2 fault 12 profile 1 44 "litt";
48 => 2 fault 12 profile 1 44 "littl";
49 => 2 fault 12 profile 1 44 "little";
50 => 2 fault 12 profile 1 44 "little_";
51 => 2 fault 12 profile 1 44 "little_e";
52 => 2 fault 12 profile 1 44 "little_en";
53 => 2 fault 12 profile 1 44 "little_end";
54 => 2 fault 12 profile 1 44 "little_endi";
55 => 2 fault 12 profile 1 44 "little_endia";
56 => 2 fault 10 syntax 1 57;
57 => 2 fault 10 syntax 1 58;
58 => 2 fault 10 syntax 1 59;
59 => 2 fault 10 syntax 1 60;
60 => 2 fault 12 profile 1 60 "e";
61 => 2 fault 12 profile 1 60 "ex";
62 => 2 fault 12 profile 1 60 "exp";
63 => 2 fault 12 profile 1 60 "expo";
64 => 2 fault 12 profile 1 60 "expor";
65 => 2 fault 12 profile 1 60 "export";
66 => 2 fault 10 syntax 1 67;
67 => 2 fault 10 syntax 1 68;
68 => 2 fault 10 syntax 1 69;
69 => 2 fault 10 syntax 1 70;
70 => 2 fault 12 profile 1 70 "f";
71 => 2 fault 12 profile 1 70 "fr";
72 => 2 fault 12 profile 1 70 "fre";
73 => 2 fault 12 profile 1 70 "fref";
74 => 2 fault 10 syntax 1 75;
75 => 2 fault 10 syntax 1 76;
76 => 2 fault 10 syntax 1 77;
77 => 2 fault 10 syntax 1 78;
78 => 2 fault 10 syntax 1 79;
79 => 2 fault 10 syntax 1 80;
80 => 2 fault 12 profile 1 80 "l";
81 => 2 fault 12 profile 1 80 "lr";
82 => 2 fault 12 profile 1 80 "lre";
83 => 2 fault 12 profile 1 80 "lref";
84 => 2 fault 10 syntax 1 85;
85 => 2 fault 10 syntax 1 86;
86 => 2 fault 10 syntax 1 87;
87 => 2 fault 10 syntax 1 88;
88 => 2 fault 10 syntax 1 89;
89 => 2 fault 10 syntax 1 90;
90 => 2 fault 10 syntax 1 91;
91 => 2 fault 10 syntax 1 92;
92 => 2 fault 12 profile 1 92 "i";
93 => 2 fault 12 profile 1 92 "im";
94 => 2 fault 12 profile 1 92 "imp";
95 => 2 fault 12 profile 1 92 "impo";
96 => 2 fault 12 profile 1 92 "impor";
97 => 2 fault 12 profile 1 92 "import";
98 => 2 fault 10 syntax 1 99;
99 => 2 fault 10 syntax 1 100;
100 => 2 fault 10 syntax 1 101;
101 => 2 fault 10 syntax 1 102;
102 => 2 fault 12 profile 1 102 "f";
103 => 2 fault 12 profile 1 102 "fr";
104 => 2 fault 12 profile 1 102 "fre";
105 => 2 fault 12 profile 1 102 "fref";
106 => 2 fault 10 syntax 1 107;
107 => 2 fault 10 syntax 1 108;
108 => 2 fault 10 syntax 1 109;
109 => 2 fault 10 syntax 1 110;
110 => 2 fault 10 syntax 1 111;
111 => 2 fault 10 syntax 1 112;
112 => 2 fault 12 profile 1 112 "l";
113 => 2 fault 12 profile 1 112 "lr";
114 => 2 fault 12 profile 1 112 "lre";
115 => 2 fault 12 profile 1 112 "lref";
116 => 2 fault 10 syntax 1 117;
117 => 2 fault 10 syntax 1 118;
118 => 2 fault 10 syntax 1 119;
119 => 2 fault 10 syntax 1 120;
120 => 2 fault 10 syntax 1 121;
121 => 2 fault 10 syntax 1 122;
122 => 2 fault 10 syntax 1 123;
123 => 2 fault 10 syntax 1 124;
124 => 2 fault 12 profile 1 124 "d";
125 => 2 fault 12 profile 1 124 "de";
126 => 2 fault 12 profile 1 124 "dec";
127 => 2 fault 12 profile 1 124 "decl";
128 => 2 fault 10 syntax 1 129;
129 => 2 fault 10 syntax 1 130;
130 => 2 fault 10 syntax 1 131;
131 => 2 fault 10 syntax 1 132;
132 => 2 fault 10 syntax 1 133;
133 => 2 fault 10 syntax 1 134;
134 => 2 fault 12 profile 1 134 "i";
135 => 2 fault 12 profile 1 134 "in";
136 => 2 fault 12 profile 1 134 "ini";
137 => 2 fault 12 profile 1 134 "init";
138 => 2 fault 10 syntax 1 139;
139 => 2 fault 10 syntax 1 140;
140 => 2 fault 10 syntax 1 141;
141 => 2 fault 10 syntax 1 142;
142 => 2 fault 10 syntax 1 143;
143 => 2 fault 10 syntax 1 144;
144 => 2 fault 12 profile 1 144 "f";
145 => 2 fault 12 profile 1 144 "fu";
146 => 2 fault 12 profile 1 144 "fun";
147 => 2 fault 12 profile 1 144 "func";
148 => 2 fault 10 syntax 1 149;
149 => 2 fault 10 syntax 1 150;
150 => 2 fault 10 syntax 1 151;
151 => 2 fault 10 syntax 1 152;
152 => 2 fault 12 profile 1 152 "f";
153 => 2 fault 12 profile 1 152 "fu";
154 => 2 fault 12 profile 1 152 "fun";
155 => 2 fault 10 syntax 1 156;
156 => 2 fault 10 syntax 1 157;
157 => 2 fault 10 syntax 1 158;
158 => 2 fault 10 syntax 1 159;
159 => 2 fault 12 profile 1 159 "l";
160 => 2 fault 12 profile 1 159 "la";
161 => 2 fault 12 profile 1 159 "lab";
162 => 2 fault 12 profile 1 159 "labe";
163 => 2 fault 10 syntax 1 164;
164 => 2 fault 10 syntax 1 165;
165 => 2 fault 12 profile 1 165 "3";
166 => 2 fault 10 syntax 1 167;
167 => 2 fault 10 syntax 1 168;
168 => 2 fault 10 syntax 1 169;
169 => 2 fault 10 syntax 1 170;
170 => 2 fault 12 profile 1 170 "l";
171 => 2 fault 12 profile 1 170 "lr";
172 => 2 fault 12 profile 1 170 "lre";
173 => 2 fault 10 syntax 1 174;
174 => 2 fault 10 syntax 1 175;
175 => 2 fault 12 profile 1 175 "3";
176 => 2 fault 10 syntax 1 177;
177 => 2 fault 10 syntax 1 178;
178 => 2 fault 10 syntax 1 178;
179 => 2 fault 10 syntax 1 178;
180 => 2 fault 10 syntax 1 178;
181 => 2 fault 10 syntax 1 178;
182 => 2 fault 10 syntax 1 178;
183 => 2 fault 10 syntax 1 184;
184 => 2 fault 10 syntax 1 185;
185 => 2 fault 10 syntax 1 186;
186 => 2 fault 10 syntax 1 187;
187 => 2 fault 10 syntax 1 188;
188 => 2 fault 10 syntax 1 189;
189 => 2 fault 12 profile 1 189 "d";
190 => 2 fault 12 profile 1 189 "de";
191 => 2 fault 12 profile 1 189 "dec";
192 => 2 fault 12 profile 1 189 "dec_";
193 => 2 fault 12 profile 1 189 "dec_u";
194 => 2 fault 12 profile 1 189 "dec_un";
195 => 2 fault 12 profile 1 189 "dec_uns";
196 => 2 fault 12 profile 1 189 "dec_unsi";
197 => 2 fault 12 profile 1 189 "dec_unsig";
198 => 2 fault 12 profile 1 189 "dec_unsign";
199 => 2 fault 12 profile 1 189 "dec_unsigne";
200 => 2 fault 10 syntax 1 201;
201 => 2 fault 10 syntax 1 202;
202 => 2 fault 12 profile 1 202 "3";
203 => 2 fault 10 syntax 1 204;
204 => 2 fault 10 syntax 1 205;
205 => 2 fault 10 syntax 1 206;
206 => 2 fault 10 syntax 1 207;
207 => 2 fault 10 syntax 1 208;
208 => 2 fault 10 syntax 1 209;
209 => 2 fault 10 syntax 1 210;
210 => 2 fault 10 syntax 1 211;
211 => 2 fault 10 syntax 1 212;
212 => 2 fault 10 syntax 1 213;
213 => 2 fault 12 profile 1 213 "a";
214 => 2 fault 12 profile 1 213 "ar";
215 => 2 fault 12 profile 1 213 "arg";
216 => 2 fault 12 profile 1 213 "arg_";
217 => 2 fault 12 profile 1 213 "arg_d";
218 => 2 fault 12 profile 1 213 "arg_de";
219 => 2 fault 12 profile 1 213 "arg_dec";
220 => 2 fault 12 profile 1 213 "arg_decl";
221 => 2 fault 10 syntax 1 222;
222 => 2 fault 10 syntax 1 223;
223 => 2 fault 10 syntax 1 224;
224 => 2 fault 10 syntax 1 225;
225 => 2 fault 10 syntax 1 226;
226 => 2 fault 10 syntax 1 227;
227 => 2 fault 12 profile 1 227 "s";
228 => 2 fault 12 profile 1 227 "sc";
229 => 2 fault 12 profile 1 227 "sco";
230 => 2 fault 12 profile 1 227 "scop";
231 => 2 fault 10 syntax 1 232;
232 => 2 fault 10 syntax 1 233;
233 => 2 fault 10 syntax 1 234;
234 => 2 fault 10 syntax 1 235;
235 => 2 fault 12 profile 1 235 "d";
236 => 2 fault 12 profile 1 235 "de";
237 => 2 fault 12 profile 1 235 "dec";
238 => 2 fault 12 profile 1 235 "decl";
239 => 2 fault 10 syntax 1 240;
240 => 2 fault 10 syntax 1 241;
241 => 2 fault 10 syntax 1 242;
242 => 2 fault 10 syntax 1 243;
243 => 2 fault 10 syntax 1 244;
244 => 2 fault 10 syntax 1 245;
245 => 2 fault 12 profile 1 245 "i";
246 => 2 fault 12 profile 1 245 "in";
247 => 2 fault 12 profile 1 245 "ini";
248 => 2 fault 12 profile 1 245 "init";
249 => 2 fault 10 syntax 1 250;
250 => 2 fault 10 syntax 1 251;
251 => 2 fault 10 syntax 1 252;
252 => 2 fault 10 syntax 1 253;
253 => 2 fault 10 syntax 1 254;
254 => 2 fault 10 syntax 1 255;
255 => 2 fault 12 profile 1 255 "s";
256 => 2 fault 12 profile 1 255 "st";
257 => 2 fault 12 profile 1 255 "stm";
258 => 2 fault 12 profile 1 255 "stmt";
259 => 2 fault 10 syntax 1 260;
260 => 2 fault 10 syntax 1 261;
261 => 2 fault 10 syntax 1 262;
262 => 2 fault 10 syntax 1 263;
263 => 2 fault 12 profile 1 263 "r";
264 => 2 fault 12 profile 1 263 "re";
265 => 2 fault 12 profile 1 263 "ret";
266 => 2 fault 12 profile 1 263 "retu";
267 => 2 fault 12 profile 1 263 "retur";
268 => 2 fault 10 syntax 1 269;
269 => 2 fault 10 syntax 1 270;
270 => 2 fault 10 syntax 1 271;
271 => 2 fault 10 syntax 1 272;
272 => 2 fault 10 syntax 1 273;
273 => 2 fault 10 syntax 1 274;
274 => 2 fault 10 syntax 1 275;
275 => 2 fault 10 syntax 1 276;
276 => 2 fault 10 syntax 1 277;
277 => 2 fault 10 syntax 1 278;
278 => 2 fault 10 syntax 1 279;
279 => 2 fault 10 syntax 1 280;"#;

#[test]
fn a_text_departs_where_it_is_cut(rt: HostRuntime) -> Result<(), Fail> {
    hold(rt.alloc(), CUTS)
}
